//! What a call of a site in memory counts.
ghost use Rattle.std.specs.Prelude.{◌≡◌, IsTrue};
ghost use Rattle.site_model.specs.Counts.{max_servers};
ghost use Rattle.site_model.specs.Tallies.{counts_of, next_call};
ghost use Rattle.site_mem.specs.Events.{event_now};
ghost use Rattle.site_mem.specs.Counting.{CountsEvent, IsCall, IsWithin};

use crate::asked::{Asked, Request};
use site_model::Tally;

/// One call more that can change something.
pub fn count(tally: &mut Tally, request: &Request<'_>, failed: bool)
    requires call { IsCall (event_now request.now) }
    requires within { IsWithin max_servers (event_now request.now) }
    ensures counts { CountsEvent (event_now request.now) (counts_of tally.old) (counts_of tally.new)
        (IsTrue failed) }
    ensures calls { tally.new.calls ≡ next_call tally.old }
{
    match request {
        Asked::Append { server, bytes, .. } => tally.count_write(*server, bytes.len(), failed),
        Asked::Sync { server, .. } => tally.count_write(*server, 0, failed),
        Asked::Cut { server, .. } => tally.count_write(*server, 0, failed),
        Asked::Rename { server, .. } => tally.count_write(*server, 0, failed),
        Asked::Remove { server, .. } => tally.count_write(*server, 0, failed),
        Asked::Say { .. } => tally.count_say(failed),
        Asked::Add { .. } => unreachable!(),
        Asked::Tell { .. } => unreachable!(),
    }
}
