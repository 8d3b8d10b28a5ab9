//! The files that are kept open.
ghost use Rattle.std.specs.Prelude.{◌≤◌, length};

use std::alloc::{AllocError, Global};

// How many files are kept open at most.
const MOST: usize = 64;

/// An open file of a server.
#[derive(Drop)]
pub struct KeptFile<F> {
    server: u32,
    name: String,
    pub file: F,
}

impl<F> KeptFile<F> {
    ghost use Rattle.std.specs.Prelude.{◌≡◌};
    ghost use Rattle.site_dir.specs.Kept.{has_place};

    // Whether it is the file of this name at this server.
    fn is_at(&self, server: u32, name: &str) -> bool
        ensures { result ≡ has_place (server, name.now) self.now }
    {
        self.server == server && self.name.as_str() == name
    }
}

/// Open files, the one that was opened first in front.
#[derive(Drop)]
pub struct KeptFiles<F> {
    pub files: Vec<KeptFile<F>>,
    ghost few: { length files.items ≤ 64 },
}

impl<F: Drop> KeptFiles<F> {
    ghost use Rattle.std.specs.Prelude.{◌≡◌, ◌<◌, ◌↔◌, ◌≤◌, drop, length, IfOk, IsTrue, MatchOption, []};
    ghost use Rattle.site_dir.specs.Kept.{IsAt, AreElsewhere, without_place};

    pub fn new(alloc: Global) -> Self
        ensures { result.files.items ≡ [] }
    {
        KeptFiles {
            files: Vec::new(alloc),
        }
    }

    /// Where the file stands, if it is kept.
    #[tactic(auto, using(crate::proofs::Keeping::one_more, crate::proofs::Keeping::all))]
    pub fn position(&self, server: u32, name: &str) -> Option<usize>
        ensures { MatchOption result (AreElsewhere (server, name.now) self.now.files.items)
            (λ at. IsAt (server, name.now) self.now.files.items at) }
    {
        for (at, kept) in self.files.iter().enumerate() {
            if kept.is_at(server, name) {
                return Some(at);
            }
        }
        None
    }

    /// Keeps one more file, and answers where. Where there are too many the first one is closed.
    pub fn keep(
        &mut self,
        alloc: Global,
        server: u32,
        name: &str,
        file: F,
    ) -> Result<usize, AllocError>
        ensures { IfOk result (λ at. IsAt (server, name.now) self.new.files.items at) }
    {
        let name = name.to_string(alloc)?;
        if self.files.len() >= MOST {
            self.files.remove(0);
        }
        self.files.push(KeptFile { server, name, file })?;
        Ok(self.files.len() - 1)
    }

    /// Closes the file that was opened first, and answers whether there was one.
    pub fn close_first(&mut self) -> bool
        ensures closed { self.new.files.items ≡ drop 1 self.old.files.items }
        ensures some { IsTrue result ↔ 0 < length self.old.files.items }
    {
        if self.files.is_empty() {
            return false;
        }
        self.files.remove(0);
        true
    }

    /// Closes the file, if it is kept.
    pub fn close(&mut self, server: u32, name: &str)
        ensures { self.new.files.items ≡ without_place (server, name.now) self.old.files.items }
    {
        self.files.retain(|kept| !kept.is_at(server, name));
    }
}
