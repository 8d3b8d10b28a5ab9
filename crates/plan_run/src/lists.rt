//! The steps that write a piece of a list. For `run_step`, to come.
ghost use Rattle.std.specs.Prelude.{◌≡◌, ◌≤◌, IsTrue, drop, length, take};
ghost use Rattle.plan_steps.specs.declared.step.Step.TheVariants as step;
ghost use Rattle.plan_steps.specs.Progressing.{running};
ghost use Rattle.plan_steps.specs.Stepping.{IsDue};
ghost use Rattle.plan_run.specs.Stepping.{FailsWriting, IsAtWork, Steps, TakesFew};

use crate::grow_file;
use crate::names::FileNames;
use crate::pieces::{DELETION, LIST_PIECE, PAIR_LENGTH, fill_deletions, fill_pairs};
use crate::steps::place_of;
use file_names::Kind;
use plan_steps::{Plan, Progress};
use site_model::{DeviceFault, Site};

/// Puts a piece of the deleted ids behind the pairs of a temporary journal.
pub(crate) fn journal_step<T: Site>(
    site: &mut T,
    plan: &Plan,
    progress: &mut Progress,
    names: &FileNames,
    server: u32,
    at: u64,
    room: &mut [u8],
) -> Result<(), DeviceFault>
    requires work { IsAtWork (running plan.now progress.old) (T.servers site.old) names.now }
    requires due { IsDue (running plan.now progress.old) (step.PutJournal server at) }
    requires room { 32768 ≤ length room.old }
    ensures steps { Steps (IsTrue T.tells) (running plan.now progress.old) (step.PutJournal server at)
        (running plan.now progress.new) result (T.disk site.old) (T.disk site.new) }
    ensures few { TakesFew T.counts T.servers result site.old site.new }
    ensures wrote { FailsWriting T.counts result site.old site.new }
    ensures room { length room.new ≡ length room.old }
{
    let place = place_of(progress, server, Kind::Ecj);
    let ids = ids_from(plan, at);
    fill_pairs(ids, room);
    let end = PAIR_LENGTH * ids.len();
    let piece = &room[..end];
    grow_file(
        site,
        plan,
        progress,
        place,
        names.temp(place),
        names.last(place),
        piece,
    )
}

/// Puts deletions of a piece of the deleted ids behind the temporary data file.
pub(crate) fn deletes_step<T: Site>(
    site: &mut T,
    plan: &Plan,
    progress: &mut Progress,
    names: &FileNames,
    at: u64,
    room: &mut [u8],
) -> Result<(), DeviceFault>
    requires work { IsAtWork (running plan.now progress.old) (T.servers site.old) names.now }
    requires due { IsDue (running plan.now progress.old) (step.JoinDeletes at) }
    requires room { 65536 ≤ length room.old }
    ensures steps { Steps (IsTrue T.tells) (running plan.now progress.old) (step.JoinDeletes at)
        (running plan.now progress.new) result (T.disk site.old) (T.disk site.new) }
    ensures few { TakesFew T.counts T.servers result site.old site.new }
    ensures wrote { FailsWriting T.counts result site.old site.new }
    ensures room { length room.new ≡ length room.old }
{
    let place = place_of(progress, plan.home, Kind::Dat);
    let ids = ids_from(plan, at);
    fill_deletions(ids, room);
    let end = DELETION * ids.len();
    let piece = &room[..end];
    grow_file(
        site,
        plan,
        progress,
        place,
        names.temp(place),
        names.last(place),
        piece,
    )
}

// The deleted ids of the piece that begins with this one.
fn ids_from(plan: &Plan, at: u64) -> &[u64]
    requires { at ≤ length plan.now.deleted.items }
    ensures { result.now ≡ take 2048 (drop at plan.now.deleted.items) }
{
    let rest = &plan.deleted[at as usize..];
    &rest[..rest.len().min(LIST_PIECE)]
}
