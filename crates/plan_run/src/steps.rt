//! The steps that move one file of a plan, without a piece of it. For `run_step`, to come.
ghost use Rattle.std.specs.Prelude.{◌≡◌, IsTrue, ℕ, Some, slice_get};
ghost use Rattle.stripe_layout.specs.Information.{info_text};
ghost use Rattle.image_meaning.specs.Share.{share_of};
ghost use Rattle.plan_steps.specs.declared.plan.FileState.{FileState};
ghost use Rattle.plan_steps.specs.declared.step.Step.TheVariants as step;
ghost use Rattle.plan_steps.specs.Fitting.{AreStates};
ghost use Rattle.plan_steps.specs.Listed.{IsListed};
ghost use Rattle.plan_steps.specs.AsTold.{StandsAsTold};
ghost use Rattle.plan_steps.specs.Progressing.{running};
ghost use Rattle.plan_steps.specs.Stepping.{IsDue};
ghost use Rattle.plan_run.specs.Stepping.{FailsWriting, IsAtWork, Steps, TakesFew};

use crate::names::FileNames;
use crate::{clear_file, put_file, register_file, sync_file};
use file_names::Kind;
use plan_steps::{Plan, Progress};
use site_model::{DeviceFault, Site};

/// The place of a file in the list, which it is in once.
pub(crate) fn place_of(progress: &Progress, server: u32, kind: Kind) -> usize
    requires there { IsListed progress.now.files.items server kind }
    requires apart { AreStates progress.now.files.items }
    ensures { (at : ℕ) (file : FileState) → slice_get progress.now.files.items at ≡ Some file
        → file.server ≡ server → file.kind ≡ kind → result ≡ at }
{
    progress.position_of(server, kind).unwrap()
}

/// Makes all of a file firm that is written.
pub(crate) fn sync_step<T: Site>(
    site: &mut T,
    plan: &Plan,
    progress: &mut Progress,
    names: &FileNames,
    server: u32,
    kind: Kind,
) -> Result<(), DeviceFault>
    requires work { IsAtWork (running plan.now progress.old) (T.servers site.old) names.now }
    requires due { IsDue (running plan.now progress.old) (step.Sync server kind) }
    requires told { IsTrue T.tells → StandsAsTold plan.now progress.old.files.items
        (share_of (T.disk site.old).files plan.now.volume) }
    ensures steps { Steps (IsTrue T.tells) (running plan.now progress.old) (step.Sync server kind)
        (running plan.now progress.new) result (T.disk site.old) (T.disk site.new) }
    ensures few { TakesFew T.counts T.servers result site.old site.new }
    ensures wrote { FailsWriting T.counts result site.old site.new }
{
    let at = place_of(progress, server, kind);
    sync_file(site, plan, progress, at, names.temp(at), names.last(at))
}

/// Gives a file its final name that is firm.
pub(crate) fn register_step<T: Site>(
    site: &mut T,
    plan: &Plan,
    progress: &mut Progress,
    names: &FileNames,
    server: u32,
    kind: Kind,
) -> Result<(), DeviceFault>
    requires work { IsAtWork (running plan.now progress.old) (T.servers site.old) names.now }
    requires due { IsDue (running plan.now progress.old) (step.Register server kind) }
    requires told { IsTrue T.tells → StandsAsTold plan.now progress.old.files.items
        (share_of (T.disk site.old).files plan.now.volume) }
    ensures steps { Steps (IsTrue T.tells) (running plan.now progress.old) (step.Register server kind)
        (running plan.now progress.new) result (T.disk site.old) (T.disk site.new) }
    ensures few { TakesFew T.counts T.servers result site.old site.new }
    ensures wrote { FailsWriting T.counts result site.old site.new }
{
    let at = place_of(progress, server, kind);
    register_file(site, plan, progress, at, names.temp(at), names.last(at))
}

/// Removes a file that was found.
pub(crate) fn clear_step<T: Site>(
    site: &mut T,
    plan: &Plan,
    progress: &mut Progress,
    names: &FileNames,
    server: u32,
    kind: Kind,
) -> Result<(), DeviceFault>
    requires work { IsAtWork (running plan.now progress.old) (T.servers site.old) names.now }
    requires due { IsDue (running plan.now progress.old) (step.Unregister server kind) }
    ensures steps { Steps (IsTrue T.tells) (running plan.now progress.old) (step.Unregister server kind)
        (running plan.now progress.new) result (T.disk site.old) (T.disk site.new) }
    ensures few { TakesFew T.counts T.servers result site.old site.new }
{
    let at = place_of(progress, server, kind);
    clear_file(site, plan, progress, at, names.temp(at), names.last(at))
}

/// Removes the index of the plain volume.
pub(crate) fn drop_index_step<T: Site>(
    site: &mut T,
    plan: &Plan,
    progress: &mut Progress,
    names: &FileNames,
    server: u32,
) -> Result<(), DeviceFault>
    requires work { IsAtWork (running plan.now progress.old) (T.servers site.old) names.now }
    requires due { IsDue (running plan.now progress.old) (step.DropIndex server) }
    ensures steps { Steps (IsTrue T.tells) (running plan.now progress.old) (step.DropIndex server)
        (running plan.now progress.new) result (T.disk site.old) (T.disk site.new) }
    ensures few { TakesFew T.counts T.servers result site.old site.new }
{
    clear_step(site, plan, progress, names, server, Kind::Idx)
}

/// Removes the data file of the plain volume.
pub(crate) fn drop_data_step<T: Site>(
    site: &mut T,
    plan: &Plan,
    progress: &mut Progress,
    names: &FileNames,
    server: u32,
) -> Result<(), DeviceFault>
    requires work { IsAtWork (running plan.now progress.old) (T.servers site.old) names.now }
    requires due { IsDue (running plan.now progress.old) (step.DropData server) }
    ensures steps { Steps (IsTrue T.tells) (running plan.now progress.old) (step.DropData server)
        (running plan.now progress.new) result (T.disk site.old) (T.disk site.new) }
    ensures few { TakesFew T.counts T.servers result site.old site.new }
{
    clear_step(site, plan, progress, names, server, Kind::Dat)
}

/// Writes the text that describes the coded volume.
pub(crate) fn info_step<T: Site>(
    site: &mut T,
    plan: &Plan,
    progress: &mut Progress,
    names: &FileNames,
    server: u32,
    text: &[u8],
) -> Result<(), DeviceFault>
    requires work { IsAtWork (running plan.now progress.old) (T.servers site.old) names.now }
    requires due { IsDue (running plan.now progress.old) (step.PutInfo server) }
    requires text { text.now ≡ info_text plan.now.info }
    ensures steps { Steps (IsTrue T.tells) (running plan.now progress.old) (step.PutInfo server)
        (running plan.now progress.new) result (T.disk site.old) (T.disk site.new) }
    ensures few { TakesFew T.counts T.servers result site.old site.new }
{
    let at = place_of(progress, server, Kind::Vif);
    put_file(
        site,
        plan,
        progress,
        at,
        names.temp(at),
        names.last(at),
        text,
    )
}
