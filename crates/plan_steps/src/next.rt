//! Which step is next.
#![tactic(auto)]

ghost use Rattle.std.specs.Prelude.{◌≡◌, ◌↔◌, ◌^◌, ◌≤◌, ◌<◌, None};
ghost use Rattle.plan_steps.specs.Planned.{is_at};
ghost use Rattle.plan_steps.specs.Walk.{AreFinished, first_open, position_of};
ghost use Rattle.plan_steps.specs.Next.{IsSized, coming_step, copy_index, entries_by, file_at, file_step, first_holder, going_step};
ghost use Rattle.plan_steps.specs.Next.{if_behind, index_step, is_behind, is_whole, is_data, is_made, is_move_of, is_synced};
ghost use Rattle.plan_steps.specs.Next.{joined_length, mend_step, move_place, next_step, piece_step, shard_source, shard_step, step_at, turn_of};
ghost use Rattle.file_names.specs.declared.Kind.TheVariants.{Idx};
ghost use Rattle.plan_steps.specs.Legality.{IsLegalNext};

use crate::pieces::{ENTRY, data_step, make_step};
use crate::{FileState, Plan, Progress, Stage, Step};
use file_names::Kind;
use shard_table::ShardMove;
use world_model::limits::DELETION_LENGTH;
use world_model::types::Command;

impl Stage {
    pub(crate) fn is_behind(self) -> bool
        ensures { result ≡ is_behind self }
    {
        match self {
            Stage::Absent => true,
            Stage::Writing => true,
            _ => false,
        }
    }

    pub(crate) fn is_synced(self) -> bool
        ensures { result ≡ is_synced self }
    {
        match self {
            Stage::Synced => true,
            _ => false,
        }
    }
}

pub(crate) fn is_data(kind: Kind) -> bool
    ensures { result ≡ is_data kind }
{
    match kind {
        Kind::Dat => true,
        _ => false,
    }
}

fn is_move_of(shard: u8, server: u32, shard_move: &ShardMove) -> bool
    ensures { result ≡ is_move_of shard server shard_move.now }
{
    shard_move.shard == shard && shard_move.to == server
}

fn going_step(server: u32, kind: Kind) -> Step
    ensures { result ≡ going_step server kind }
{
    match kind {
        Kind::Dat => Step::DropData { server },
        Kind::Idx => Step::DropIndex { server },
        Kind::Cpd => Step::Unregister {
            server,
            kind: Kind::Cpd,
        },
        Kind::Cpx => Step::Unregister {
            server,
            kind: Kind::Cpx,
        },
        Kind::Shard(shard) => Step::Unregister {
            server,
            kind: Kind::Shard(shard),
        },
        Kind::Ecx => Step::Unregister {
            server,
            kind: Kind::Ecx,
        },
        Kind::Ecj => Step::Unregister {
            server,
            kind: Kind::Ecj,
        },
        Kind::Vif => Step::Unregister {
            server,
            kind: Kind::Vif,
        },
    }
}

// The index, where it isn't synced yet, and else the file.
fn if_behind(index: Option<FileState>, file: FileState) -> FileState
    ensures { result ≡ if_behind index file }
{
    match index {
        Some(index) => earlier(index, file),
        None => file,
    }
}

fn earlier(index: FileState, file: FileState) -> FileState
    ensures { result ≡ if_behind (Some index) file }
{
    if index.stage.is_behind() { index } else { file }
}

impl Progress {
    fn file_at(&self, at: Option<usize>) -> Option<FileState>
        ensures { result ≡ file_at self.now.files.items at }
    {
        match at {
            Some(at) => self.files.get(at).copied(),
            None => None,
        }
    }

    // The file whose turn it is: before a data file that is synced the index beside it, until it is synced too.
    fn turn_of(&self, file: FileState) -> FileState
        ensures { result ≡ turn_of self.now.files.items file }
    {
        if is_data(file.kind) && file.stage.is_synced() {
            if_behind(self.file_at(self.position_of(file.server, Kind::Idx)), file)
        } else {
            file
        }
    }
}

impl Plan {
    /// The next step, and none exactly where all files of the list are finished. It is legal from each progress that the
    /// plan reaches.
    #[tactic(auto, using(crate::specs::Laws::Next::no_step_ends))]
    pub fn next(&self, progress: &Progress) -> Option<Step>
        requires { IsSized self.now }
        ensures step { result ≡ next_step self.now progress.now.files.items progress.now.place }
        ensures end { (result ≡ None) ↔ AreFinished self.now progress.now.files.items }
        ensures legal { IsLegalNext self.now progress.now result }
    {
        self.step_at(progress, progress.file_at(self.first_open(progress)))
    }

    fn step_at(&self, progress: &Progress, file: Option<FileState>) -> Option<Step>
        requires { IsSized self.now }
        ensures { result ≡ step_at self.now progress.now.files.items progress.now.place file }
    {
        match file {
            Some(file) => Some(self.file_step(progress.place, &progress.turn_of(file))),
            None => None,
        }
    }

    fn file_step(&self, place: u64, file: &FileState) -> Step
        requires { IsSized self.now }
        ensures { result ≡ file_step self.now place file.now }
    {
        if self.found(file.server, file.kind) {
            going_step(file.server, file.kind)
        } else {
            self.coming_step(place, file)
        }
    }

    fn coming_step(&self, place: u64, file: &FileState) -> Step
        requires { IsSized self.now }
        ensures { result ≡ coming_step self.now place file.now file.now.stage }
    {
        let server = file.server;
        let kind = file.kind;
        match file.stage {
            Stage::Absent => self.piece_step(place, server, file.length, kind),
            Stage::Writing => self.writing_step(place, file),
            Stage::Synced => Step::Register { server, kind },
            Stage::Registered => Step::Register { server, kind },
            Stage::Gone => self.piece_step(place, server, file.length, kind),
        }
    }

    fn writing_step(&self, place: u64, file: &FileState) -> Step
        requires { IsSized self.now }
        ensures { result ≡ coming_step self.now place file.now Stage.Writing }
    {
        if self.is_whole(place, file.length, file.kind) {
            Step::Sync {
                server: file.server,
                kind: file.kind,
            }
        } else {
            self.piece_step(place, file.server, file.length, file.kind)
        }
    }

    fn entry_total(&self) -> u64
        requires { IsSized self.now }
        ensures value { result ≡ entries_by self.now self.now.command }
        ensures few { result < 2 ^ 60 }
    {
        match self.command {
            Command::Encode { .. } => self.entries.len() as u64,
            Command::Rebuild => self.entry_count,
            Command::Balance => self.entry_count,
            Command::Decode => self.entry_count,
        }
    }

    fn joined_length(&self) -> u64
        requires { IsSized self.now }
        ensures { result ≡ joined_length self.now }
    {
        self.info.dat_size + DELETION_LENGTH * self.deleted.len() as u64
    }

    /// Whether a file of this kind is complete with so many bytes, where the next record of a decode has this place.
    pub fn is_whole(&self, place: u64, length: u64, kind: Kind) -> bool
        requires { IsSized self.now }
        ensures { result ≡ is_whole self.now place length kind }
    {
        match kind {
            Kind::Dat => length == self.joined_length(),
            Kind::Idx => place == self.joined_length(),
            Kind::Cpd => false,
            Kind::Cpx => false,
            Kind::Shard(_) => length == self.info.geometry.shard_length(self.info.dat_size),
            Kind::Ecx => length == ENTRY * self.entry_total(),
            Kind::Ecj => length == ENTRY * self.deleted.len() as u64,
            Kind::Vif => false,
        }
    }

    // The piece that a file needs next. A text is written whole, and no list has a file that a vacuum makes.
    fn piece_step(&self, place: u64, server: u32, length: u64, kind: Kind) -> Step
        requires { IsSized self.now }
        ensures { result ≡ piece_step self.now place server length kind }
    {
        match kind {
            Kind::Dat => data_step(&self.info, length),
            Kind::Idx => Step::WriteEntries { at: place },
            Kind::Cpd => Step::Sync {
                server,
                kind: Kind::Cpd,
            },
            Kind::Cpx => Step::Sync {
                server,
                kind: Kind::Cpx,
            },
            Kind::Shard(shard) => self.shard_step(shard, server, length),
            Kind::Ecx => self.index_step(server, length),
            Kind::Ecj => Step::PutJournal {
                server,
                at: length / ENTRY,
            },
            Kind::Vif => Step::PutInfo { server },
        }
    }

    fn index_step(&self, server: u32, length: u64) -> Step
        ensures { result ≡ index_step self.now self.now.command server length }
    {
        match self.command {
            Command::Encode { .. } => Step::WriteEntries { at: length / ENTRY },
            Command::Rebuild => self.copy_index(server, length),
            Command::Balance => self.copy_index(server, length),
            Command::Decode => self.copy_index(server, length),
        }
    }

    fn copy_index(&self, server: u32, length: u64) -> Step
        ensures { result ≡ copy_index self.now server length }
    {
        Step::CopyPiece {
            from: self.first_holder(),
            to: server,
            kind: Kind::Ecx,
            at: length,
        }
    }

    // The server of the first shard that was found.
    fn first_holder(&self) -> u32
        ensures { result ≡ first_holder self.now.places.items self.now.home }
    {
        match self.places.first() {
            Some(place) => place.1,
            None => self.home,
        }
    }

    fn shard_step(&self, shard: u8, server: u32, length: u64) -> Step
        requires { IsSized self.now }
        ensures { result ≡ shard_step self.now self.now.command shard server length }
    {
        match self.command {
            Command::Encode { .. } => make_step(&self.info, length),
            Command::Rebuild => self.mend_step(shard, server, length),
            Command::Balance => self.mend_step(shard, server, length),
            Command::Decode => self.mend_step(shard, server, length),
        }
    }

    pub(crate) fn is_made(&self, shard: u8, server: u32) -> bool
        ensures { result ≡ is_made self.now shard server }
    {
        self.targets.iter().any(|p| p.0 == shard && p.1 == server)
    }

    fn mend_step(&self, shard: u8, server: u32, length: u64) -> Step
        ensures { result ≡ mend_step self.now shard server length }
    {
        if self.is_made(shard, server) {
            Step::MendPiece { at: length }
        } else {
            Step::CopyPiece {
                from: self.shard_source(shard, server),
                to: server,
                kind: Kind::Shard(shard),
                at: length,
            }
        }
    }

    fn move_place(&self, shard: u8, server: u32) -> Option<usize>
        ensures { result ≡ move_place self.now shard server }
    {
        self.moves
            .iter()
            .position(|shard_move| is_move_of(shard, server, shard_move))
    }

    // Where the shard is that a move brings to the server.
    #[tactic(auto, using(crate::proofs::Walked::source_there))]
    fn shard_source(&self, shard: u8, server: u32) -> u32
        ensures { result ≡ shard_source self.now shard server }
    {
        match self.move_place(shard, server) {
            Some(at) => self.moves[at].from,
            None => self.home,
        }
    }
}
