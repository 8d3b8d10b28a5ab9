//! Which step is legal.
#![tactic(auto)]

ghost use Rattle.std.specs.Prelude.{◌≡◌};
ghost use Rattle.shard_table.specs.Table.{row_of};
ghost use Rattle.plan_steps.specs.Next.{IsSized};
ghost use Rattle.plan_steps.specs.Legality.{deletes_go_on, entries_go_on, goes_on, goes_on_behind, is_behind_data};
ghost use Rattle.plan_steps.specs.Legality.{is_complete_as, is_complete_file, is_in_order, is_join};
ghost use Rattle.plan_steps.specs.Legality.{is_legal, is_made_kind, is_make, is_shard, is_synced_file, is_writing};
ghost use Rattle.plan_steps.specs.Legality.{join_goes_on, make_goes_on, may_unregister};

use crate::next::is_data;
use crate::pieces::{ENTRY, join_step, make_step};
use crate::walk::same_kind;
use crate::{FileState, Plan, Progress, Stage, Step};
use file_names::{Kind, MAX_SHARDS};
use shard_table::ShardTable;
use world_model::limits::DELETION_LENGTH;

impl Stage {
    fn is_writing(self) -> bool
        ensures { result ≡ is_writing self }
    {
        match self {
            Stage::Writing => true,
            _ => false,
        }
    }
}

fn is_shard(kind: Kind) -> bool
    ensures { result ≡ is_shard kind }
{
    match kind {
        Kind::Shard(_) => true,
        _ => false,
    }
}

fn is_make(row: u64, at: u64, step: Step) -> bool
    ensures { result ≡ is_make row at step }
{
    match step {
        Step::MakePiece { row: r, at: a } => r == row && a == at,
        _ => false,
    }
}

fn is_join(row: u64, block: u8, at: u64, step: Step) -> bool
    ensures { result ≡ is_join row block at step }
{
    match step {
        Step::JoinPiece {
            row: r,
            block: b,
            at: a,
        } => r == row && b == block && a == at,
        _ => false,
    }
}

impl Progress {
    #[tactic(auto, unfolding(crate::specs::Legality::is_synced_file))]
    fn is_synced(&self, server: u32, kind: Kind) -> bool
        ensures { result ≡ is_synced_file self.now.files.items server kind }
    {
        self.files.iter().any(|file| file.is_file(server, kind) && file.stage.is_synced())
    }
}

impl Plan {
    /// Whether the step is legal at this progress, where the table has these places.
    pub fn legal(&self, step: &Step, table: &ShardTable, progress: &Progress) -> bool
        requires { IsSized self.now }
        ensures { result ≡ is_legal self.now progress.now.files.items progress.now.place
            (row_of table.now self.now.volume) step.now }
    {
        match *step {
            Step::PutInfo { server } => !self.has_some_shard(progress, server),
            Step::WriteEntries { at } => self.is_in_order(progress, Step::WriteEntries { at }),
            Step::PutJournal { server, at } => {
                self.is_in_order(progress, Step::PutJournal { server, at })
            }
            Step::MakePiece { row, at } => {
                self.is_in_order(progress, Step::MakePiece { row, at })
                    && self.has_file(progress, self.home, Kind::Idx)
            }
            Step::MendPiece { at } => self.is_in_order(progress, Step::MendPiece { at }),
            Step::JoinPiece { row, block, at } => {
                self.is_in_order(progress, Step::JoinPiece { row, block, at })
            }
            Step::JoinDeletes { at } => self.is_in_order(progress, Step::JoinDeletes { at }),
            Step::CopyPiece { from, to, kind, at } => {
                self.is_in_order(progress, Step::CopyPiece { from, to, kind, at })
            }
            Step::Sync { server, kind } => self.is_complete_file(progress, server, kind),
            Step::Register { server, kind } => {
                progress.is_synced(server, kind) && self.may_register(progress, server, kind)
            }
            Step::Unregister { server, kind } => self.may_unregister(progress, table, server, kind),
            Step::DropIndex { server } => self.may_remove(progress, table, server, Kind::Idx),
            Step::DropData { server } => self.may_remove(progress, table, server, Kind::Dat),
        }
    }

    fn may_unregister(
        &self,
        progress: &Progress,
        table: &ShardTable,
        server: u32,
        kind: Kind,
    ) -> bool
        ensures { result ≡ may_unregister self.now progress.now.files.items
            (row_of table.now self.now.volume) server kind }
    {
        // a plain volume's files are dropped, not unregistered
        kind.is_in_grammar() && kind.is_coded() && self.may_remove(progress, table, server, kind)
    }

    // Whether the file is complete, and waits for its sync.
    #[tactic(auto, unfolding(crate::specs::Legality::is_complete_file))]
    fn is_complete_file(&self, progress: &Progress, server: u32, kind: Kind) -> bool
        requires { IsSized self.now }
        ensures { result ≡ is_complete_file self.now progress.now.files.items progress.now.place server kind }
    {
        let place = progress.place;
        progress
            .files
            .iter()
            .any(|file| self.is_complete_as(place, server, kind, file))
    }

    fn is_complete_as(&self, place: u64, server: u32, kind: Kind, file: &FileState) -> bool
        requires { IsSized self.now }
        ensures { result ≡ is_complete_as self.now place server kind file.now }
    {
        file.is_file(server, kind)
            && file.stage.is_writing()
            && self.is_whole(place, file.length, file.kind)
    }

    // Whether the step goes on where some file ends that it appends to.
    #[tactic(auto, unfolding(crate::specs::Legality::is_in_order))]
    fn is_in_order(&self, progress: &Progress, step: Step) -> bool
        requires { IsSized self.now }
        ensures { result ≡ is_in_order self.now progress.now.files.items progress.now.place step }
    {
        let place = progress.place;
        progress
            .files
            .iter()
            .any(|file| self.goes_on_behind(place, step, file))
    }

    fn goes_on_behind(&self, place: u64, step: Step, file: &FileState) -> bool
        requires { IsSized self.now }
        ensures { result ≡ goes_on_behind self.now place step file.now }
    {
        file.stage.is_behind() && self.goes_on(place, step, file)
    }

    fn goes_on(&self, place: u64, step: Step, file: &FileState) -> bool
        requires { IsSized self.now }
        ensures { result ≡ goes_on self.now place step file.now }
    {
        let length = file.length;
        match step {
            Step::WriteEntries { at } => self.entries_go_on(place, at, file),
            Step::PutJournal { server, at } => {
                file.is_file(server, Kind::Ecj) && at == length / ENTRY
            }
            Step::MakePiece { row, at } => self.make_goes_on(row, at, file),
            Step::MendPiece { at } => self.is_made_kind(file.server, file.kind) && at == length,
            Step::JoinPiece { row, block, at } => self.join_goes_on(row, block, at, file),
            Step::JoinDeletes { at } => self.deletes_go_on(at, file),
            Step::CopyPiece { to, kind, at, .. } => file.is_file(to, kind) && at == length,
            _ => false,
        }
    }

    fn entries_go_on(&self, place: u64, at: u64, file: &FileState) -> bool
        ensures { result ≡ entries_go_on self.now place at file.now }
    {
        if self.is_encode() {
            same_kind(file.kind, Kind::Ecx) && at == file.length / ENTRY
        } else {
            same_kind(file.kind, Kind::Idx) && at == place
        }
    }

    fn make_goes_on(&self, row: u64, at: u64, file: &FileState) -> bool
        requires { IsSized self.now }
        ensures { result ≡ make_goes_on self.now row at file.now }
    {
        is_shard(file.kind) && is_make(row, at, make_step(&self.info, file.length))
    }

    fn join_goes_on(&self, row: u64, block: u8, at: u64, file: &FileState) -> bool
        requires { IsSized self.now }
        ensures { result ≡ join_goes_on self.now row block at file.now }
    {
        is_data(file.kind)
            && file.length < self.info.dat_size
            && is_join(row, block, at, join_step(&self.info, file.length))
    }

    fn deletes_go_on(&self, at: u64, file: &FileState) -> bool
        ensures { result ≡ deletes_go_on self.now at file.now }
    {
        is_data(file.kind) && is_behind_data(self.info.dat_size, at, file.length)
    }

    fn is_made_kind(&self, server: u32, kind: Kind) -> bool
        ensures { result ≡ is_made_kind self.now server kind }
    {
        match kind {
            Kind::Shard(shard) => self.is_made(shard, server),
            _ => false,
        }
    }
}

// Whether the deletion stands where a data file of this length ends, behind what the shards hold.
fn is_behind_data(size: u64, at: u64, length: u64) -> bool
    ensures { result ≡ is_behind_data size at length }
{
    if length < size {
        false
    } else {
        at == (length - size) / DELETION_LENGTH
    }
}
