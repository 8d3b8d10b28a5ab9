//! The steps that write pieces of an encode's files. For `run_step`, to come.
ghost use Rattle.std.specs.Prelude.{◌≡◌, ◌≤◌, ◌<◌, ◌+◌, ◌^◌, ℕ, IsTrue, OnOk, Some, drop, length, map, slice_get, take};
ghost use Rattle.file_names.specs.declared.Kind.TheVariants.{Ecx};
ghost use Rattle.plan_steps.specs.declared.plan.FileState.{FileState};
ghost use Rattle.plan_steps.specs.declared.step.Step.TheVariants as step;
ghost use Rattle.plan_steps.specs.Next.{is_behind};
ghost use Rattle.plan_steps.specs.Planned.{is_encode};
ghost use Rattle.plan_steps.specs.Progressing.{running};
ghost use Rattle.plan_steps.specs.Stepping.{IsDue};
ghost use Rattle.plan_steps.specs.Walk.{same_kind};
ghost use Rattle.plan_run.specs.Faults.{AtFile, WritesAt};
ghost use Rattle.plan_run.specs.Growing.{AppendsAt, GrowsAll, IsGrownAt, entries_at, entries_told, takes_entries};
ghost use Rattle.plan_run.specs.Stepping.{FailsWriting, IsAtWork, Steps, TakesFew};

use crate::names::FileNames;
use crate::pieces::{LIST_PIECE, fill_entries};
use file_names::Kind;
use plan_steps::{FileState, Plan, Progress, Stage};
use site_model::{DeviceFault, Site};
use volume_forms::{ENTRY_LENGTH, Entry};

const ENTRY: u64 = ENTRY_LENGTH as u64;

/// Puts a piece behind the temporary file at a place of the list, and tells nothing of it.
pub(crate) fn append_file<T: Site>(
    site: &mut T,
    plan: &Plan,
    progress: &Progress,
    names: &FileNames,
    at: usize,
    piece: &[u8],
) -> Result<(), DeviceFault>
    requires work { IsAtWork (running plan.now progress.now) (T.servers site.old) names.now }
    requires there { at < length progress.now.files.items }
    ensures effect { IsTrue T.tells
        → AppendsAt (running plan.now progress.now) at piece.now (T.disk site.old) (T.disk site.new) }
    ensures done { OnOk result (IsTrue T.tells → IsGrownAt (running plan.now progress.now) at piece.now
        (T.disk site.old).files (T.disk site.new).files) }
    ensures runs { AtFile progress.now.files.items at
        (λ server. WritesAt T.counts T.servers server (length piece.now) result site.old site.new) }
{
    let file = progress.files[at];
    match site.append(file.server, names.temp(at), piece) {
        Ok(()) => Ok(()),
        Err(_) => Err(DeviceFault {
            server: file.server,
        }),
    }
}

// Whether a file at this stage isn't synced yet.
fn is_behind(stage: Stage) -> bool
    ensures { result ≡ is_behind stage }
{
    match stage {
        Stage::Absent | Stage::Writing => true,
        _ => false,
    }
}

// Whether the file is an index of a coded volume.
fn is_index(kind: Kind) -> bool
    ensures { result ≡ same_kind kind Ecx }
{
    kind == Kind::Ecx
}

// Whether the entries from this number on go behind the file.
fn takes_entries(file: &FileState, at: u64) -> bool
    ensures { result ≡ takes_entries at file.now }
{
    is_behind(file.stage) && is_index(file.kind) && at == file.length / ENTRY
}

// Puts entries behind all the indexes that are so far.
fn grow_files<T: Site>(
    site: &mut T,
    plan: &Plan,
    progress: &Progress,
    names: &FileNames,
    at: u64,
    piece: &[u8],
) -> Result<(), DeviceFault>
    requires work { IsAtWork (running plan.now progress.now) (T.servers site.old) names.now }
    requires encode { IsTrue (is_encode plan.now.command) }
    requires piece { piece.now ≡ entries_at plan.now at }
    ensures effect { IsTrue T.tells → GrowsAll (running plan.now progress.now) (step.WriteEntries at) result
        (T.disk site.old) (T.disk site.new) }
    ensures few { TakesFew T.counts T.servers result site.old site.new }
    ensures wrote { FailsWriting T.counts result site.old site.new }
{
    for (place, file) in progress.files.iter().enumerate() {
        if !takes_entries(file, at) {
            continue;
        }
        append_file(site, plan, progress, names, place, piece)?;
    }
    Ok(())
}

// The file with so many bytes more, if the entries from this number on went behind it.
fn entries_told(file: FileState, at: u64, count: u64) -> FileState
    requires { IsTrue (takes_entries at file) → file.length + count < 2 ^ 64 }
    ensures { result ≡ entries_told at count file }
{
    if takes_entries(&file, at) {
        FileState {
            length: file.length + count,
            stage: Stage::Writing,
            ..file
        }
    } else {
        file
    }
}

// Tells that the entries from this number on, so many bytes, stand in all the indexes that were so far.
fn tell_entries(progress: &mut Progress, at: u64, count: u64)
    requires { (j : ℕ) (s : FileState) → slice_get progress.old.files.items j ≡ Some s
        → IsTrue (takes_entries at s) → s.length + count < 2 ^ 64 }
    ensures place { progress.new.place ≡ progress.old.place }
    ensures files { progress.new.files.items ≡ map (entries_told at count) progress.old.files.items }
{
    for place in 0..progress.files.len() {
        progress.files[place] = entries_told(progress.files[place], at, count);
    }
}

// The entries of the piece that begins with this one.
fn entries_from(plan: &Plan, at: u64) -> &[Entry]
    requires { at ≤ length plan.now.entries.items }
    ensures { result.now ≡ take 2048 (drop at plan.now.entries.items) }
{
    let rest = &plan.entries[at as usize..];
    &rest[..rest.len().min(LIST_PIECE)]
}

/// Puts a piece of the index entries behind the temporary coded indexes of an encode.
pub(crate) fn entries_step<T: Site>(
    site: &mut T,
    plan: &Plan,
    progress: &mut Progress,
    names: &FileNames,
    at: u64,
    room: &mut [u8],
) -> Result<(), DeviceFault>
    requires work { IsAtWork (running plan.now progress.old) (T.servers site.old) names.now }
    requires due { IsDue (running plan.now progress.old) (step.WriteEntries at) }
    requires encode { IsTrue (is_encode plan.now.command) }
    requires room { 32768 ≤ length room.old }
    ensures steps { Steps (IsTrue T.tells) (running plan.now progress.old) (step.WriteEntries at)
        (running plan.now progress.new) result (T.disk site.old) (T.disk site.new) }
    ensures few { TakesFew T.counts T.servers result site.old site.new }
    ensures wrote { FailsWriting T.counts result site.old site.new }
    ensures room { length room.new ≡ length room.old }
{
    let entries = entries_from(plan, at);
    fill_entries(entries, room);
    let end = ENTRY_LENGTH * entries.len();
    let piece = &room[..end];
    grow_files(site, plan, progress, names, at, piece)?;
    tell_entries(progress, at, end as u64);
    Ok(())
}
