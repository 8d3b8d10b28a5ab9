//! The list of a plan's files, in the order in which they are finished.
#![tactic(auto)]

ghost use Rattle.std.specs.Prelude.{◌≡◌};
ghost use Rattle.plan_steps.specs.Walk.{first_open, has_file, is_file, is_finished, is_last_stage, is_open};
ghost use Rattle.plan_steps.specs.Walk.{is_registered, is_registered_at, position_of, same_kind, stage_of};

use crate::{FileState, Plan, Progress, Stage};
use file_names::Kind;

pub(crate) fn same_kind(a: Kind, b: Kind) -> bool
    ensures { result ≡ same_kind a b }
{
    a == b
}

impl FileState {
    /// Whether it is the file of this kind at the server.
    pub fn is_file(&self, server: u32, kind: Kind) -> bool
        ensures { result ≡ is_file server kind self.now }
    {
        self.server == server && same_kind(self.kind, kind)
    }
}

impl Progress {
    /// Where the file stands in the list.
    pub fn position_of(&self, server: u32, kind: Kind) -> Option<usize>
        ensures { result ≡ position_of server kind self.now.files.items }
    {
        self.files
            .iter()
            .position(|file| file.is_file(server, kind))
    }

    /// How far the file has come, if it is in the list.
    #[tactic(auto, using(crate::proofs::Walked::stage_there))]
    pub fn stage_of(&self, server: u32, kind: Kind) -> Option<Stage>
        ensures { result ≡ stage_of server kind self.now.files.items }
    {
        match self.position_of(server, kind) {
            Some(at) => Some(self.files[at].stage),
            None => None,
        }
    }

    /// Whether the file is in the list, and has its final name.
    pub fn is_registered(&self, server: u32, kind: Kind) -> bool
        ensures { result ≡ is_registered_at self.now.files.items server kind }
    {
        match self.stage_of(server, kind) {
            Some(stage) => stage.is_registered(),
            None => false,
        }
    }
}

impl Stage {
    fn is_registered(self) -> bool
        ensures { result ≡ is_registered self }
    {
        match self {
            Stage::Registered => true,
            _ => false,
        }
    }

    // Whether a file that was found is at its end here, or else one that is written.
    fn is_last(self, found: bool) -> bool
        ensures { result ≡ is_last_stage found self }
    {
        match self {
            Stage::Registered => !found,
            Stage::Gone => found,
            _ => false,
        }
    }
}

impl Plan {
    /// Whether the file is finished: removed where it was found, else registered.
    pub fn is_finished(&self, file: &FileState) -> bool
        ensures { result ≡ is_finished self.now file.now }
    {
        file.stage.is_last(self.found(file.server, file.kind))
    }

    /// The first file of the list that isn't finished.
    pub fn first_open(&self, progress: &Progress) -> Option<usize>
        ensures { result ≡ first_open self.now progress.now.files.items }
    {
        progress.files.iter().position(|file| self.is_open(file))
    }

    fn is_open(&self, file: &FileState) -> bool
        ensures { result ≡ is_open self.now file.now }
    {
        !self.is_finished(file)
    }

    /// Whether the file stands under its final name: it was registered, or found and is no matter of the plan.
    pub fn has_file(&self, progress: &Progress, server: u32, kind: Kind) -> bool
        ensures { result ≡ has_file self.now progress.now.files.items server kind }
    {
        match progress.stage_of(server, kind) {
            Some(stage) => stage.is_registered(),
            None => self.found(server, kind),
        }
    }
}
