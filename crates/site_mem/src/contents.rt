//! The files that stand, and what was said.
ghost use Rattle.std.specs.Prelude.{IsTrue};
ghost use Rattle.site_mem.specs.Kept.{are_apart};

use crate::asked::{Asked, Recorded, Request, request_of};
use crate::losses::Losses;
use crate::stored::Stored;
use crate::tear::Tear;
use std::alloc::{AllocError, Global};

/// What stands, in place: each file once, and what was said.
#[derive(Drop)]
pub struct Contents {
    pub files: Vec<Stored>,
    pub said: Vec<u8>,
    ghost apart: { IsTrue (are_apart files.items) },
}

impl Contents {
    ghost use Rattle.std.specs.Prelude.{◌≡◌, ◌++◌, if◌then◌else◌, map, string_bytes, MatchOption, IfOk, OnOk, OnErr, Some, None, []};
    ghost use Rattle.site_model.specs.Disk.{grown, synced, cut_to, firm_file};
    ghost use Rattle.site_mem.specs.Events.{event_now, files_after, said_after, put_file};
    ghost use Rattle.site_mem.specs.Torn.{files_reached, said_reached, said_part};
    ghost use Rattle.site_mem.specs.Asking.{call_asked};
    ghost use Rattle.site_mem.specs.Lost.{has_lost, had_lost, files_without};
    ghost use Rattle.site_mem.specs.Kept.{files_kept, file_of, place_kept, IsAt, MakesRoom, found, names_at};

    pub fn new(alloc: Global) -> Self
        ensures files { result.files.items ≡ [] }
        ensures said { result.said.items ≡ [] }
    {
        Contents {
            files: Vec::new(alloc),
            said: Vec::new(alloc),
        }
    }

    // Where the file is kept.
    #[tactic(auto, using(crate::proofs::Keeping::none_more, crate::proofs::Keeping::none_all))]
    fn position(&self, server: u32, name: &str) -> Option<usize>
        ensures { MatchOption result (files_kept self.now.files.items (server, name.now) ≡ None)
            (λ at. IsAt self.now.files.items at (server, name.now)) }
    {
        for (at, file) in self.files.iter().enumerate() {
            if file.is_at(server, name) {
                return Some(at);
            }
        }
        None
    }

    /// The file of this name at this server.
    pub fn file(&self, server: u32, name: &str) -> Option<&Stored>
        ensures { found result ≡ files_kept self.now.files.items (server, name.now) }
    {
        match self.position(server, name) {
            Some(at) => Some(&self.files[at]),
            None => None,
        }
    }

    // This file at its place.
    fn put(&mut self, file: Stored) -> Result<(), AllocError>
        ensures ok { OnOk result (files_kept self.new.files.items ≡ put_file (place_kept file)
            (Some (file_of file)) (files_kept self.old.files.items)) }
        ensures err { OnErr result (files_kept self.new.files.items ≡ files_kept self.old.files.items) }
        ensures said { self.new.said.items ≡ self.old.said.items }
    {
        match self.position(file.server, file.name.as_str()) {
            Some(at) => self.files[at] = file,
            None => self.files.push(file)?,
        }
        Ok(())
    }

    // Puts bytes behind those of a file, or makes it.
    fn append(
        &mut self,
        alloc: Global,
        server: u32,
        name: &str,
        bytes: &[u8],
    ) -> Result<(), AllocError>
        ensures ok { OnOk result (files_kept self.new.files.items ≡ put_file (server, name.now)
            (Some (grown (files_kept self.old.files.items (server, name.now)) bytes.now))
            (files_kept self.old.files.items)) }
        ensures err { OnErr result (files_kept self.new.files.items ≡ files_kept self.old.files.items) }
        ensures said { self.new.said.items ≡ self.old.said.items }
    {
        match self.position(server, name) {
            Some(at) => self.files[at].grow(bytes),
            None => self.put(Stored {
                server,
                name: name.to_string(alloc)?,
                bytes: bytes.to_vec(alloc)?,
                firm: 0,
                is_named: false,
            }),
        }
    }

    // Makes a file firm.
    fn sync(&mut self, server: u32, name: &str)
        ensures files { files_kept self.new.files.items ≡ put_file (server, name.now)
            (synced (files_kept self.old.files.items (server, name.now))) (files_kept self.old.files.items) }
        ensures said { self.new.said.items ≡ self.old.said.items }
    {
        if let Some(at) = self.position(server, name) {
            self.files[at].sync();
        }
    }

    // Ends a file at this length.
    fn cut(&mut self, server: u32, name: &str, length: u64)
        ensures files { files_kept self.new.files.items ≡ put_file (server, name.now)
            (cut_to length (files_kept self.old.files.items (server, name.now)))
            (files_kept self.old.files.items) }
        ensures said { self.new.said.items ≡ self.old.said.items }
    {
        if let Some(at) = self.position(server, name) {
            self.files[at].cut(length);
        }
    }

    // A file less.
    fn remove(&mut self, server: u32, name: &str)
        ensures files { files_kept self.new.files.items ≡ put_file (server, name.now) None
            (files_kept self.old.files.items) }
        ensures said { self.new.said.items ≡ self.old.said.items }
    {
        if let Some(at) = self.position(server, name) {
            self.files.remove(at);
        }
    }

    // Nothing stands under the new name but the file itself.
    fn make_room(&mut self, server: u32, old: &str, new: &str)
        ensures files { MakesRoom (server, old.now) (server, new.now) (files_kept self.old.files.items)
            (files_kept self.new.files.items) }
        ensures said { self.new.said.items ≡ self.old.said.items }
    {
        if old != new {
            self.remove(server, new);
        }
    }

    // Gives a file another name.
    fn rename(&mut self, alloc: Global, server: u32, old: &str, new: &str) -> Result<(), AllocError>
        ensures ok { OnOk result (files_kept self.new.files.items ≡ put_file (server, new.now)
            (files_kept self.old.files.items (server, old.now))
            (put_file (server, old.now) None (files_kept self.old.files.items))) }
        ensures err { OnErr result (files_kept self.new.files.items ≡ files_kept self.old.files.items) }
        ensures said { self.new.said.items ≡ self.old.said.items }
    {
        let name = new.to_string(alloc)?;
        self.make_room(server, old, new);
        if let Some(at) = self.position(server, old) {
            self.files[at].set_name(name);
        }
        Ok(())
    }

    /// Carries out what is asked. Where a file is missing that is asked for, nothing happens, but that a file
    /// that stood under a new name is gone.
    pub fn carry_out(&mut self, alloc: Global, request: &Request<'_>) -> Result<(), AllocError>
        ensures files { OnOk result (files_kept self.new.files.items ≡ files_after (event_now request.now)
            (files_kept self.old.files.items)) }
        ensures said { OnOk result (self.new.said.items ≡ said_after (event_now request.now)
            self.old.said.items) }
        ensures err_files { OnErr result (files_kept self.new.files.items ≡ files_kept self.old.files.items) }
        ensures err_said { OnErr result (self.new.said.items ≡ self.old.said.items) }
    {
        match request {
            Asked::Add {
                server,
                name,
                bytes,
            } => self.put(Stored::firm(alloc, *server, name, bytes)?),
            Asked::Append {
                server,
                name,
                bytes,
            } => self.append(alloc, *server, name, bytes),
            Asked::Sync { server, name } => {
                self.sync(*server, name);
                Ok(())
            }
            Asked::Cut {
                server,
                name,
                length,
            } => {
                self.cut(*server, name, *length);
                Ok(())
            }
            Asked::Rename { server, old, new } => self.rename(alloc, *server, old, new),
            Asked::Remove { server, name } => {
                self.remove(*server, name);
                Ok(())
            }
            Asked::Tell { bytes } => self.said.extend_from_slice(bytes),
            Asked::Say { bytes } => self.said.extend_from_slice(bytes),
        }
    }

    /// Carries out what is asked, or does nothing.
    pub fn try_out(
        &mut self,
        alloc: Global,
        request: &Request<'_>,
        is_done: bool,
    ) -> Result<(), AllocError>
        ensures files { OnOk result (files_kept self.new.files.items
            ≡ (if is_done then files_after (event_now request.now) (files_kept self.old.files.items)
            else files_kept self.old.files.items)) }
        ensures said { OnOk result (self.new.said.items
            ≡ (if is_done then said_after (event_now request.now) self.old.said.items
            else self.old.said.items)) }
        ensures err_files { OnErr result (files_kept self.new.files.items ≡ files_kept self.old.files.items) }
        ensures err_said { OnErr result (self.new.said.items ≡ self.old.said.items) }
    {
        if !is_done {
            return Ok(());
        }
        self.carry_out(alloc, request)
    }

    /// The names of the files at a server.
    pub fn names(&self, alloc: Global, server: u32) -> Result<Vec<String>, AllocError>
        ensures { IfOk result (λ names. map string_bytes names.items ≡ names_at server self.now.files.items) }
    {
        let mut names = Vec::new(alloc);
        for file in &self.files {
            file.add_name(alloc, server, &mut names)?;
        }
        Ok(names)
    }

    /// The files at the servers that lost theirs are gone.
    pub fn lose(&mut self, losses: &Losses)
        ensures files { files_kept self.new.files.items ≡ files_without (has_lost losses.now.since)
            (files_kept self.old.files.items) }
        ensures said { self.new.said.items ≡ self.old.said.items }
    {
        self.files.retain(|file| !losses.has_lost(file.server));
    }

    /// The files at the servers that had lost theirs before the call with this number are gone.
    pub fn lose_by(&mut self, losses: &Losses, number: u64)
        ensures files { files_kept self.new.files.items ≡ files_without (had_lost losses.now.since number)
            (files_kept self.old.files.items) }
        ensures said { self.new.said.items ≡ self.old.said.items }
    {
        self.files
            .retain(|file| !losses.had_lost(file.server, number));
    }

    /// Does as much of a call as a stop within it finds done.
    pub fn reach(
        &mut self,
        alloc: Global,
        asked: Option<&Recorded>,
        tear: Tear,
    ) -> Result<(), AllocError>
        ensures files { OnOk result (files_kept self.new.files.items ≡ files_reached tear
            (call_asked asked.entry) (files_kept self.old.files.items)) }
        ensures said { OnOk result (self.new.said.items ≡ said_reached tear (call_asked asked.entry)
            self.old.said.items) }
    {
        let Some(asked) = asked else {
            return Ok(());
        };
        match asked {
            Asked::Say { bytes } => self.say_part(bytes, tear),
            Asked::Add { .. } => Ok(()),
            Asked::Tell { .. } => Ok(()),
            Asked::Sync { .. } => Ok(()),
            asked => match tear {
                Tear::None => Ok(()),
                _ => self.carry_out(alloc, &request_of(asked)),
            },
        }
    }

    // Says as much of some bytes as a stop finds said.
    fn say_part(&mut self, bytes: &[u8], tear: Tear) -> Result<(), AllocError>
        ensures files { files_kept self.new.files.items ≡ files_kept self.old.files.items }
        ensures said { OnOk result (self.new.said.items ≡ self.old.said.items ++ said_part tear bytes.now) }
    {
        match tear {
            Tear::None => Ok(()),
            Tear::All => self.said.extend_from_slice(bytes),
            Tear::Half => self.said.extend_from_slice(&bytes[..bytes.len() / 2]),
            Tear::Fill(_) => self.said.extend_from_slice(bytes),
        }
    }
}
