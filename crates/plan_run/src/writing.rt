//! The calls of a site by which a file of a plan is written.
ghost use Rattle.std.specs.Prelude.{◌≡◌, ◌<◌, ◌≤◌, ◌+◌, ◌^◌, IsTrue, MatchResult, length};
ghost use Rattle.site_model.specs.Counts.{widest_piece};
ghost use Rattle.whole_file.specs.Pieces.{append_pieces};
ghost use Rattle.plan_steps.specs.Progressing.{running};
ghost use Rattle.plan_run.specs.Faults.{AtFile, IsBlamed, WritesAt};
ghost use Rattle.plan_steps.specs.After.{grown_by, put_whole};
ghost use Rattle.plan_run.specs.Finishing.{IsNamedFile, Does, TouchesFile, TouchesTemp, Keeps, Tells};
ghost use Rattle.plan_run.specs.Writing.{HasRoom, Grown, GrownTold, Puts, Put, PutTold};

use plan_steps::{FileState, Plan, Progress, Stage};
use site_model::{DeviceFault, Site};
use whole_file::replace;

/// Puts a piece behind the bytes of a temporary file.
pub fn grow_file<T: Site>(
    site: &mut T,
    plan: &Plan,
    progress: &mut Progress,
    at: usize,
    temp: &str,
    name: &str,
    piece: &[u8],
) -> Result<(), DeviceFault>
    requires file { IsNamedFile plan.now.volume (T.servers site.old)
        progress.old.files.items at temp.now name.now }
    requires room { HasRoom progress.old.files.items at (length piece.now) }
    ensures effect { IsTrue T.tells
        → Does (TouchesTemp (running plan.now progress.old) at (T.disk site.old) (T.disk site.new))
        (Keeps (running plan.now progress.old) at (T.disk site.old) (T.disk site.new))
        (Grown (running plan.now progress.old) at piece.now (T.disk site.old) (T.disk site.new)
        (running plan.now progress.new))
        (GrownTold (running plan.now progress.old) at (T.disk site.old) (T.disk site.new)
        (running plan.now progress.new)) result }
    ensures state { MatchResult result (λ _. Tells at (grown_by (length piece.now)) progress.old progress.new)
        (λ _. progress.new ≡ progress.old) }
    ensures runs { AtFile progress.old.files.items at
        (λ server. WritesAt T.counts T.servers server (length piece.now) result site.old site.new) }
{
    let file = progress.files[at];
    match site.append(file.server, temp, piece) {
        Ok(()) => {
            progress.files[at] = FileState {
                length: file.length + piece.len() as u64,
                stage: Stage::Writing,
                ..file
            };
            Ok(())
        }
        Err(_) => Err(DeviceFault {
            server: file.server,
        }),
    }
}

/// Writes a file whole: by a temporary one, which is synced and then renamed.
pub fn put_file<T: Site>(
    site: &mut T,
    plan: &Plan,
    progress: &mut Progress,
    at: usize,
    temp: &str,
    name: &str,
    bytes: &[u8],
) -> Result<(), DeviceFault>
    requires file { IsNamedFile plan.now.volume (T.servers site.old)
        progress.old.files.items at temp.now name.now }
    requires there { at < length progress.old.files.items }
    requires volume { plan.now.volume < 2 ^ 32 }
    ensures effect { IsTrue T.tells
        → Does (TouchesFile (running plan.now progress.old) at (T.disk site.old) (T.disk site.new))
        (Puts (running plan.now progress.old) at bytes.now (T.disk site.old) (T.disk site.new))
        (Put (running plan.now progress.old) at bytes.now (T.disk site.old) (T.disk site.new)
        (running plan.now progress.new))
        (PutTold (running plan.now progress.old) at bytes.now (T.disk site.old) (T.disk site.new)
        (running plan.now progress.new)) result }
    ensures state { MatchResult result
        (λ _. Tells at (put_whole (length bytes.now)) progress.old progress.new)
        (λ _. progress.new ≡ progress.old) }
    ensures runs { AtFile progress.old.files.items at
        (λ server. IsBlamed T.counts T.servers server (append_pieces (length bytes.now) + 4) widest_piece
        result site.old site.new) }
{
    let file = progress.files[at];
    match replace(site, file.server, name, temp, bytes) {
        Ok(()) => {
            progress.files[at] = FileState {
                length: bytes.len() as u64,
                stage: Stage::Registered,
                ..file
            };
            Ok(())
        }
        Err(_) => Err(DeviceFault {
            server: file.server,
        }),
    }
}
