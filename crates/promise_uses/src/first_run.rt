//! A run over a site in memory without files, and a stop in it.
ghost use Rattle.std.specs.Prelude.{◌≡◌, ◌≢◌, ◌≤◌, ◌⊎◌, ◌++◌, ◌^◌, ℕ, List, None, length, map, string_bytes, IfSome, IfOk};
ghost use Rattle.site_model.specs.Counts.{Rose};
ghost use Rattle.site_mem.specs.Record.{nothing};
ghost use Rattle.site_mem.specs.Site.{IsLeftSinceStart, counts_at, disk_at};
ghost use Rattle.site_mem.specs.Source.{faults_of, left_of};
ghost use Rattle.weed_shell.specs.Headline.{IsAnswered};
ghost use Rattle.weed_shell.specs.Progress.{run_to, start_of};
ghost use Rattle.weed_shell.specs.Words.{served_settings};
ghost use Rattle.promise_uses.specs.Runs.{IsCalm};
ghost use Rattle.promise_uses.specs.Starts.{NeedleHasTime, NeedleStays};

use site_mem::{FixedClock, MemSite, MemSource, Tear};
use std::alloc::{AllocError, Global};
use weed_shell::{Status, weed};

/// A run over a site without files. It has its promise, with no premise left (`answered`). Where it creates volume 7 and
/// puts a needle there, each image that a stop leaves after both answers means exactly that needle (`needle`), and its
/// record has the time that the clock tells (`stamped`). Over a source of 30 bytes, or of any number up to 2^48, it ends
/// as `Done` or for want of memory, unless a count of faults rose (`ends`).
pub fn run_from_nothing(
    alloc: Global,
    words: &[String],
    source: &mut MemSource,
    site: &mut MemSite,
    clock: &mut FixedClock,
) -> Status
    requires fresh { disk_at site.old ≡ nothing }
    ensures answered { IfSome (served_settings (map string_bytes words.now))
        (λ s. IsAnswered (run_to (start_of
        (disk_at site.old) (counts_at site.old) site.old.servers s.limit (left_of source.old))
        (disk_at site.new) (counts_at site.new) (left_of source.new) result)) }
    ensures needle { IfSome (served_settings (map string_bytes words.now)) (λ s. NeedleStays (run_to (start_of
        (disk_at site.old) (counts_at site.old) site.old.servers s.limit (left_of source.old))
        (disk_at site.new) (counts_at site.new) (left_of source.new) result)) }
    ensures stamped { IfSome (served_settings (map string_bytes words.now))
        (λ s. NeedleHasTime clock.old.now (run_to (start_of (disk_at site.old) (counts_at site.old)
        site.old.servers s.limit (left_of source.old)) (disk_at site.new) (counts_at site.new)
        (left_of source.new) result)) }
    ensures ends { served_settings (map string_bytes words.now) ≢ None → length (left_of source.old) ≤ 2 ^ 48
        → IsCalm (counts_at site.old) (counts_at site.new) (faults_of source.old) (faults_of source.new)
        → (result ≡ Status.Done) ⊎ (result ≡ Status.Memory) }
{
    weed(alloc, words, source, site, clock)
}

/// What a stop within the call leaves of the site: one of the images of which a promise speaks, whoever made the call.
/// There is none where the call was not made, or where a server lost its files between it and the next one.
pub fn stop_in(
    alloc: Global,
    site: &MemSite,
    call: u64,
    tear: Tear,
) -> Result<Option<MemSite>, AllocError>
    ensures { IfOk result (λ left. IfSome left (λ m. IsLeftSinceStart site.now (disk_at m))) }
{
    if call == 0 || site.calls() < call || site.loses_after(call) {
        return Ok(None);
    }
    Ok(Some(site.left(alloc, call, tear)?))
}
