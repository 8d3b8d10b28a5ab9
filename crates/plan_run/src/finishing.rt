//! The calls of a site by which a file of a plan is finished or goes.
ghost use Rattle.std.specs.Prelude.{◌≡◌, IsTrue, MatchResult};
ghost use Rattle.plan_steps.specs.Progressing.{running};
ghost use Rattle.plan_run.specs.Faults.{AtFile, IsBlamed, IsBlamedForWriting};
ghost use Rattle.plan_steps.specs.After.{at_stage};
ghost use Rattle.plan_run.specs.Finishing.{IsNamedFile, TempStands, Does, TouchesFile, TouchesTemp, Tells};
ghost use Rattle.plan_run.specs.Finishing.{Keeps, Synced, SyncedTold, Registers, Registered, RegisteredTold};
ghost use Rattle.plan_run.specs.Finishing.{Clears, Cleared, ClearedTold};

use plan_steps::{Plan, Progress, Stage};
use site_model::{DeviceFault, Site};
use whole_file::clear;

/// Makes all of a temporary file firm.
pub fn sync_file<T: Site>(
    site: &mut T,
    plan: &Plan,
    progress: &mut Progress,
    at: usize,
    temp: &str,
    name: &str,
) -> Result<(), DeviceFault>
    requires file { IsNamedFile plan.now.volume (T.servers site.old)
        progress.old.files.items at temp.now name.now }
    requires stands { IsTrue T.tells → TempStands (running plan.now progress.old) at (T.disk site.old).files }
    ensures effect { IsTrue T.tells
        → Does (TouchesTemp (running plan.now progress.old) at (T.disk site.old) (T.disk site.new))
        (Keeps (running plan.now progress.old) at (T.disk site.old) (T.disk site.new))
        (Synced (running plan.now progress.old) at (T.disk site.old) (T.disk site.new)
        (running plan.now progress.new))
        (SyncedTold (running plan.now progress.old) at (T.disk site.old) (T.disk site.new)
        (running plan.now progress.new)) result }
    ensures state { MatchResult result (λ _. Tells at (at_stage Stage.Synced) progress.old progress.new)
        (λ _. progress.new ≡ progress.old) }
    ensures runs { AtFile progress.old.files.items at
        (λ server. IsBlamedForWriting T.counts T.servers server 1 0 result site.old site.new) }
{
    let server = progress.files[at].server;
    match site.sync(server, temp) {
        Ok(()) => {
            progress.files[at].stage = Stage::Synced;
            Ok(())
        }
        Err(_) => Err(DeviceFault { server }),
    }
}

/// Gives a temporary file, which is firm, its final name.
pub fn register_file<T: Site>(
    site: &mut T,
    plan: &Plan,
    progress: &mut Progress,
    at: usize,
    temp: &str,
    name: &str,
) -> Result<(), DeviceFault>
    requires file { IsNamedFile plan.now.volume (T.servers site.old)
        progress.old.files.items at temp.now name.now }
    requires stands { IsTrue T.tells → TempStands (running plan.now progress.old) at (T.disk site.old).files }
    ensures effect { IsTrue T.tells
        → Does (TouchesFile (running plan.now progress.old) at (T.disk site.old) (T.disk site.new))
        (Registers (running plan.now progress.old) at (T.disk site.old) (T.disk site.new))
        (Registered (running plan.now progress.old) at (T.disk site.old) (T.disk site.new)
        (running plan.now progress.new))
        (RegisteredTold (running plan.now progress.old) at (T.disk site.old) (T.disk site.new)
        (running plan.now progress.new)) result }
    ensures state { MatchResult result (λ _. Tells at (at_stage Stage.Registered) progress.old progress.new)
        (λ _. progress.new ≡ progress.old) }
    ensures runs { AtFile progress.old.files.items at
        (λ server. IsBlamedForWriting T.counts T.servers server 1 0 result site.old site.new) }
{
    let server = progress.files[at].server;
    match site.rename(server, temp, name) {
        Ok(()) => {
            progress.files[at].stage = Stage::Registered;
            Ok(())
        }
        Err(_) => Err(DeviceFault { server }),
    }
}

/// Removes a file, if it stands.
pub fn clear_file<T: Site>(
    site: &mut T,
    plan: &Plan,
    progress: &mut Progress,
    at: usize,
    temp: &str,
    name: &str,
) -> Result<(), DeviceFault>
    requires file { IsNamedFile plan.now.volume (T.servers site.old)
        progress.old.files.items at temp.now name.now }
    ensures effect { IsTrue T.tells
        → Does (TouchesFile (running plan.now progress.old) at (T.disk site.old) (T.disk site.new))
        (Clears (running plan.now progress.old) at (T.disk site.old) (T.disk site.new))
        (Cleared (running plan.now progress.old) at (T.disk site.old) (T.disk site.new)
        (running plan.now progress.new))
        (ClearedTold (running plan.now progress.old) at (T.disk site.old) (T.disk site.new)
        (running plan.now progress.new)) result }
    ensures state { MatchResult result (λ _. Tells at (at_stage Stage.Gone) progress.old progress.new)
        (λ _. progress.new ≡ progress.old) }
    ensures runs { AtFile progress.old.files.items at
        (λ server. IsBlamed T.counts T.servers server 2 0 result site.old site.new) }
{
    let server = progress.files[at].server;
    match clear(site, server, name) {
        Ok(()) => {
            progress.files[at].stage = Stage::Gone;
            Ok(())
        }
        Err(_) => Err(DeviceFault { server }),
    }
}
