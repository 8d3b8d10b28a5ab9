//! Which file may get its final name, and which may go.
#![tactic(auto)]

ghost use Rattle.std.specs.Prelude.{◌≡◌, ◌<◌, IsTrue};
ghost use Rattle.plan_steps.specs.Planned.{is_decode, is_encode};
ghost use Rattle.plan_steps.specs.Fitting.{AreStates};
ghost use Rattle.plan_steps.specs.Legal.{MayRegister, MayRemove};
ghost use Rattle.plan_steps.specs.May.{has_all_shards, has_an_index, has_beside, has_no_index_but, has_shard};
ghost use Rattle.plan_steps.specs.May.{has_some_shard, is_bare, is_coded, is_complete, is_complete_at, is_elsewhere};
ghost use Rattle.plan_steps.specs.May.{has_shard_but, is_in_ratio, stands_elsewhere};
ghost use Rattle.plan_steps.specs.May.{is_only_index, may_drop_index, may_drop_shard, may_register, may_remove};
ghost use Rattle.file_names.specs.Names.{IsKind, max_shards};
ghost use Rattle.shard_table.specs.Table.{row_of};

use crate::{Plan, Progress};
use file_names::{Kind, MAX_SHARDS};
use shard_table::ShardTable;
use site_model::MAX_SERVERS;
use world_model::types::Command;

impl Plan {
    /// Whether an index stands at some server.
    #[tactic(auto, unfolding(crate::specs::May::has_an_index))]
    pub fn has_an_index(&self, progress: &Progress) -> bool
        ensures { result ≡ has_an_index self.now progress.now.files.items }
    {
        (0..MAX_SERVERS).any(|server| self.has_file(progress, server, Kind::Idx))
    }

    /// Whether the shard stands at some server.
    #[tactic(auto, unfolding(crate::specs::May::has_shard))]
    pub fn has_shard(&self, progress: &Progress, shard: u8) -> bool
        ensures { result ≡ has_shard self.now progress.now.files.items shard }
    {
        (0..MAX_SERVERS).any(|server| self.has_file(progress, server, Kind::Shard(shard)))
    }

    /// Whether some shard stands at the server.
    #[tactic(auto, unfolding(crate::specs::May::has_some_shard))]
    pub fn has_some_shard(&self, progress: &Progress, server: u32) -> bool
        ensures { result ≡ has_some_shard self.now progress.now.files.items server }
    {
        (0..MAX_SHARDS).any(|shard| self.has_file(progress, server, Kind::Shard(shard)))
    }

    /// Whether the text, the index and an equal journal stand at the server.
    #[tactic(auto, unfolding(crate::specs::May::has_beside))]
    pub fn has_beside(&self, progress: &Progress, server: u32) -> bool
        ensures { result ≡ has_beside self.now progress.now.files.items server }
    {
        self.has_file(progress, server, Kind::Vif)
            && self.has_file(progress, server, Kind::Ecx)
            && (self.deleted.is_empty() || self.has_file(progress, server, Kind::Ecj))
    }

    fn is_decode(&self) -> bool
        ensures { result ≡ is_decode self.now.command }
    {
        match self.command {
            Command::Decode => true,
            _ => false,
        }
    }

    /// Whether a file that is ready may get its final name.
    #[tactic(auto, using(crate::specs::Laws::May::may_register_holds))]
    pub fn may_register(&self, progress: &Progress, server: u32, kind: Kind) -> bool
        ensures test { result ≡ may_register self.now progress.now.files.items server kind }
        ensures may { AreStates progress.now.files.items → IsTrue result
            → MayRegister self.now progress.now.files.items server kind }
    {
        match kind {
            Kind::Dat => !self.has_an_index(progress),
            Kind::Idx => self.is_decode()
                && !self.has_an_index(progress)
                && progress.is_registered(server, Kind::Dat),
            Kind::Cpd | Kind::Cpx => false,
            Kind::Shard(_) => self.has_beside(progress, server),
            Kind::Ecx => true,
            Kind::Ecj => true,
            Kind::Vif => true,
        }
    }

    pub(crate) fn is_encode(&self) -> bool
        ensures { result ≡ is_encode self.now.command }
    {
        match self.command {
            Command::Encode { .. } => true,
            _ => false,
        }
    }

    /// Whether each shard of the plan's ratio stands at some server.
    #[tactic(auto, unfolding(crate::specs::May::has_all_shards))]
    pub fn has_all_shards(&self, progress: &Progress) -> bool
        ensures { result ≡ has_all_shards self.now progress.now.files.items }
    {
        (0..self.info.geometry.ratio.shard_count()).all(|shard| self.has_shard(progress, shard))
    }

    #[tactic(auto, unfolding(crate::specs::May::is_complete_at))]
    fn is_complete_at(&self, progress: &Progress, server: u32) -> bool
        ensures { result ≡ is_complete_at self.now progress.now.files.items server }
    {
        !self.has_some_shard(progress, server) || self.has_beside(progress, server)
    }

    /// Whether the files beside shards stand wherever a shard does.
    #[tactic(auto, unfolding(crate::specs::May::is_complete))]
    pub fn is_complete(&self, progress: &Progress) -> bool
        ensures { result ≡ is_complete self.now progress.now.files.items }
    {
        (0..MAX_SERVERS).all(|server| self.is_complete_at(progress, server))
    }

    #[tactic(auto, unfolding(crate::specs::May::has_no_index_but))]
    fn has_no_index_but(&self, progress: &Progress, server: u32, other: u32) -> bool
        ensures { result ≡ has_no_index_but self.now progress.now.files.items server other }
    {
        other == server || !self.has_file(progress, other, Kind::Idx)
    }

    /// Whether no index stands at another server.
    #[tactic(auto, unfolding(crate::specs::May::is_only_index))]
    pub fn is_only_index(&self, progress: &Progress, server: u32) -> bool
        ensures { result ≡ is_only_index self.now progress.now.files.items server }
    {
        (0..MAX_SERVERS).all(|other| self.has_no_index_but(progress, server, other))
    }

    /// Whether all shards stand, with the files beside them.
    #[tactic(auto, unfolding(crate::specs::May::is_coded))]
    pub fn is_coded(&self, progress: &Progress) -> bool
        ensures { result ≡ is_coded self.now progress.now.files.items }
    {
        self.has_all_shards(progress) && self.is_complete(progress)
    }

    // the index of an encode goes at the end
    #[tactic(auto, unfolding(crate::specs::May::may_drop_index))]
    fn may_drop_index(&self, progress: &Progress, server: u32) -> bool
        ensures { result ≡ may_drop_index self.now progress.now.files.items server }
    {
        self.is_encode() && self.is_coded(progress) && self.is_only_index(progress, server)
    }

    #[tactic(auto, unfolding(crate::specs::May::has_shard_but))]
    fn has_shard_but(&self, progress: &Progress, server: u32, shard: u8, other: u32) -> bool
        ensures { result ≡ has_shard_but self.now progress.now.files.items server shard other }
    {
        other != server && self.has_file(progress, other, Kind::Shard(shard))
    }

    /// Whether the shard stands at another server.
    #[tactic(auto, unfolding(crate::specs::May::stands_elsewhere))]
    pub fn stands_elsewhere(&self, progress: &Progress, server: u32, shard: u8) -> bool
        ensures { result ≡ stands_elsewhere self.now progress.now.files.items server shard }
    {
        (0..MAX_SERVERS).any(|other| self.has_shard_but(progress, server, shard, other))
    }

    fn is_in_ratio(&self, shard: u8) -> bool
        ensures { result ≡ is_in_ratio self.now shard }
    {
        shard < self.info.geometry.ratio.shard_count()
    }

    #[tactic(auto, unfolding(crate::specs::May::may_drop_shard))]
    fn may_drop_shard(
        &self,
        progress: &Progress,
        table: &ShardTable,
        server: u32,
        shard: u8,
    ) -> bool
        requires { shard < max_shards }
        ensures { result ≡ may_drop_shard self.now progress.now.files.items
            (row_of table.now self.now.volume) server shard }
    {
        self.has_an_index(progress)
            || is_elsewhere(table.place(self.volume, shard), server)
            || (self.is_in_ratio(shard) && self.stands_elsewhere(progress, server, shard))
    }

    #[tactic(auto, unfolding(crate::specs::May::is_bare))]
    fn is_bare(&self, progress: &Progress, server: u32) -> bool
        ensures { result ≡ is_bare self.now progress.now.files.items server }
    {
        self.has_an_index(progress) || !self.has_some_shard(progress, server)
    }

    /// Whether a file may be removed, where the table has these places.
    #[tactic(auto, using(crate::specs::Laws::May::may_remove_holds))]
    pub fn may_remove(
        &self,
        progress: &Progress,
        table: &ShardTable,
        server: u32,
        kind: Kind,
    ) -> bool
        requires { IsKind kind }
        ensures test { result ≡ may_remove self.now progress.now.files.items
            (row_of table.now self.now.volume) server kind }
        ensures may { AreStates progress.now.files.items → IsTrue result
            → MayRemove self.now progress.now.files.items (row_of table.now self.now.volume) server kind }
    {
        match kind {
            Kind::Dat => !self.has_file(progress, server, Kind::Idx),
            Kind::Idx => self.may_drop_index(progress, server),
            Kind::Cpd | Kind::Cpx => false,
            Kind::Shard(shard) => self.may_drop_shard(progress, table, server, shard),
            Kind::Ecx => self.is_bare(progress, server),
            Kind::Ecj => self.is_bare(progress, server),
            Kind::Vif => self.is_bare(progress, server),
        }
    }
}

fn is_elsewhere(place: Option<u32>, server: u32) -> bool
    ensures { result ≡ is_elsewhere place server }
{
    match place {
        Some(other) => other != server,
        None => false,
    }
}
