//! The list of a plan's files when it begins.
#![tactic(auto)]

ghost use Rattle.std.specs.Prelude.{◌≡◌, ◌≤◌, ◌++◌, [], ◌∷◌, IfOk, OnOk, flat_map, length};
ghost use Rattle.plan_steps.specs.Lists.{is_target, list_of, shard_names};
ghost use Rattle.plan_steps.specs.Planned.{is_found};
ghost use Rattle.plan_steps.specs.Beginning.{decode_list, encode_list, first_stage, first_states, has_after, holders_of};
ghost use Rattle.plan_steps.specs.Beginning.{is_moved_to, is_new_target, mend_list, names_at, names_of_move, names_of_moves};
ghost use Rattle.plan_steps.specs.Beginning.{new_targets_of, targets_of};

use crate::{FileState, Plan, Progress, Stage};
use file_names::Kind;
use shard_table::ShardMove;
use site_model::MAX_SERVERS;
use std::alloc::{AllocError, Global};
use volume_forms::SUPER_LENGTH;
use world_model::types::Command;

// The length of a super block, behind which the first record stands.
const FIRST_RECORD: u64 = SUPER_LENGTH as u64;

// What stands beside the shards of a server, in the order in which it comes.
const BESIDE: [Kind; 3] = [Kind::Vif, Kind::Ecx, Kind::Ecj];

// And in the order in which it goes.
const LEFT: [Kind; 3] = [Kind::Ecx, Kind::Ecj, Kind::Vif];

impl Progress {
    /// How far a plan is when it begins: what it found stands, and it wrote nothing. This takes all memory that the
    /// progress needs.
    pub fn new(alloc: Global, plan: &Plan) -> Result<Progress, AllocError>
        ensures files { IfOk result
            (λ progress. progress.files.items ≡ first_states plan.now (list_of plan.now)) }
        ensures place { IfOk result (λ progress. progress.place ≡ 8) }
    {
        let mut files = Vec::new(alloc);
        plan.list(alloc, &mut files)?;
        Ok(Progress {
            files,
            place: FIRST_RECORD,
        })
    }
}

impl Plan {
    fn list(&self, alloc: Global, files: &mut Vec<FileState>) -> Result<(), AllocError>
        ensures { OnOk result (files.new.items ≡ files.old.items ++ first_states self.now
            (list_of self.now)) }
    {
        match self.command {
            Command::Encode { .. } => self.list_encode(alloc, files),
            Command::Rebuild => self.list_mend(alloc, files),
            Command::Balance => self.list_mend(alloc, files),
            Command::Decode => self.list_decode(alloc, files),
        }
    }
}

impl Plan {
    fn list_encode(&self, alloc: Global, files: &mut Vec<FileState>) -> Result<(), AllocError>
        ensures { OnOk result (files.new.items ≡ files.old.items ++ first_states self.now
            (encode_list self.now)) }
    {
        let servers = self.targets_of(alloc)?;
        self.add_servers(files, &servers, &[Kind::Vif])?;
        self.add_servers(files, &servers, &[Kind::Ecx])?;
        self.add_shards(files, &self.targets)?;
        self.add_kinds(files, self.home, &[Kind::Idx, Kind::Dat])
    }

    fn list_decode(&self, alloc: Global, files: &mut Vec<FileState>) -> Result<(), AllocError>
        ensures { OnOk result (files.new.items ≡ files.old.items ++ first_states self.now
            (decode_list self.now)) }
    {
        self.add_kinds(files, self.home, &[Kind::Dat, Kind::Idx])?;
        self.add_shards(files, &self.places)?;
        let servers = self.holders_of(alloc)?;
        self.add_servers(files, &servers, &LEFT)
    }

    fn list_mend(&self, alloc: Global, files: &mut Vec<FileState>) -> Result<(), AllocError>
        ensures { OnOk result (files.new.items ≡ files.old.items ++ first_states self.now
            (mend_list self.now)) }
    {
        let servers = self.new_targets_of(alloc)?;
        self.add_servers(files, &servers, &BESIDE)?;
        self.add_shards(files, &self.targets)?;
        self.add_moves(files)
    }

    /// Whether the server gets a shard that the plan makes.
    pub fn is_target(&self, server: u32) -> bool
        ensures { result ≡ is_target self.now server }
    {
        self.targets.iter().any(|p| p.1 == server)
    }

    fn is_new_target(&self, server: u32) -> bool
        ensures { result ≡ is_new_target self.now server }
    {
        self.is_target(server) && !self.held(server)
    }

    #[tactic(auto, unfolding(crate::specs::Beginning::targets_of))]
    fn targets_of(&self, alloc: Global) -> Result<Vec<u32>, AllocError>
        ensures { IfOk result (λ servers. servers.items ≡ targets_of self.now) }
    {
        (0..MAX_SERVERS)
            .filter(|server| self.is_target(*server))
            .collect(alloc)
    }

    #[tactic(auto, unfolding(crate::specs::Beginning::new_targets_of))]
    fn new_targets_of(&self, alloc: Global) -> Result<Vec<u32>, AllocError>
        ensures { IfOk result (λ servers. servers.items ≡ new_targets_of self.now) }
    {
        (0..MAX_SERVERS)
            .filter(|server| self.is_new_target(*server))
            .collect(alloc)
    }

    #[tactic(auto, unfolding(crate::specs::Beginning::holders_of))]
    fn holders_of(&self, alloc: Global) -> Result<Vec<u32>, AllocError>
        ensures { IfOk result (λ servers. servers.items ≡ holders_of self.now) }
    {
        (0..MAX_SERVERS)
            .filter(|server| self.held(*server))
            .collect(alloc)
    }

    fn first_stage(&self, server: u32, kind: Kind) -> Stage
        ensures { result ≡ first_stage (is_found self.now self.now.command server kind) }
    {
        if self.found(server, kind) {
            Stage::Registered
        } else {
            Stage::Absent
        }
    }

    fn add(&self, files: &mut Vec<FileState>, server: u32, kind: Kind) -> Result<(), AllocError>
        ensures { OnOk result (files.new.items
            ≡ files.old.items ++ first_states self.now ((server, kind) ∷ [])) }
    {
        files.push(FileState {
            server,
            kind,
            length: 0,
            stage: self.first_stage(server, kind),
        })?;
        Ok(())
    }

    fn add_kinds(
        &self,
        files: &mut Vec<FileState>,
        server: u32,
        kinds: &[Kind],
    ) -> Result<(), AllocError>
        ensures { OnOk result (files.new.items
            ≡ files.old.items ++ first_states self.now (names_at kinds.now server)) }
    {
        for kind in kinds {
            self.add(files, server, *kind)?;
        }
        Ok(())
    }

    fn add_servers(
        &self,
        files: &mut Vec<FileState>,
        servers: &[u32],
        kinds: &[Kind],
    ) -> Result<(), AllocError>
        ensures { OnOk result (files.new.items
            ≡ files.old.items ++ first_states self.now (flat_map (names_at kinds.now) servers.now)) }
    {
        for server in servers {
            self.add_kinds(files, *server, kinds)?;
        }
        Ok(())
    }

    fn add_shards(&self, files: &mut Vec<FileState>, shards: &[(u8, u32)]) -> Result<(), AllocError>
        ensures { OnOk result (files.new.items
            ≡ files.old.items ++ first_states self.now (shard_names shards.now)) }
    {
        for shard in shards {
            self.add(files, shard.1, Kind::Shard(shard.0))?;
        }
        Ok(())
    }

    // Whether the server is the target of one of so many moves.
    fn is_moved_to(&self, count: usize, server: u32) -> bool
        requires { count ≤ length self.now.moves.items }
        ensures { result ≡ is_moved_to self.now count server }
    {
        self.moves[..count].iter().any(|m| m.to == server)
    }

    // Whether the server has a shard once so many moves are made.
    fn has_after(&self, count: usize, server: u32) -> bool
        requires { count ≤ length self.now.moves.items }
        ensures { result ≡ has_after self.now count server }
    {
        self.held(server) || self.is_target(server) || self.is_moved_to(count, server)
    }

    fn add_move(
        &self,
        files: &mut Vec<FileState>,
        has: bool,
        shard_move: &ShardMove,
    ) -> Result<(), AllocError>
        ensures { OnOk result (files.new.items
            ≡ files.old.items ++ first_states self.now (names_of_move has shard_move.now)) }
    {
        if !has {
            self.add_kinds(files, shard_move.to, &BESIDE)?;
        }
        self.add(files, shard_move.to, Kind::Shard(shard_move.shard))?;
        self.add(files, shard_move.from, Kind::Shard(shard_move.shard))
    }

    fn add_moves(&self, files: &mut Vec<FileState>) -> Result<(), AllocError>
        ensures { OnOk result (files.new.items ≡ files.old.items
            ++ first_states self.now (names_of_moves self.now (length self.now.moves.items))) }
    {
        for (count, shard_move) in self.moves.iter().enumerate() {
            let has = self.has_after(count, shard_move.to);
            self.add_move(files, has, shard_move)?;
        }
        Ok(())
    }
}
