//! The opening of the servers' folders at the start of a run.
ghost use Rattle.std.specs.Prelude.{◌<◌, ◌≤◌, IfOk};
ghost use Rattle.site_model.specs.Counts.{max_servers};

use crate::disk_file::DiskFile;
use crate::files;
use crate::folders::Folders;
use crate::kept::KeptFiles;
use crate::trouble::{Trouble, at};
use site_model::{MAX_SERVERS, PLACES};
use std::alloc::Global;
use std::fs;
use std::fs::{File, Files};
use std::io::{Error, ErrorKind, Print};

// The servers of a site that is new.
const FIRST_SERVERS: u32 = 4;

// The folder that has those of the servers.
const HERE: &str = ".";

impl<R: Files<File = File> + AllocGlobal + Print + Clone + Drop> Folders<R> {
    ghost use Rattle.std.specs.Prelude.{◌<◌, ◌≤◌, IfOk};

    /// The folders, with those made that are missing, and their number. No other run may have them. What is found
    /// in them of volumes lasts from now on. Where not all that are missing can be made, none of them is left.
    pub fn new(rt: R, alloc: Global) -> Result<(Folders<R>, u32), Trouble>
        ensures some { IfOk result (λ pair. 0 < pair.1) }
        ensures few { IfOk result (λ pair. pair.1 ≤ max_servers) }
    {
        let (stand_ins, here) = at(alloc, HERE, DiskFile::open_apart(&rt, alloc, HERE))?;
        at(alloc, HERE, here.lock())?;
        let mut folders = Folders {
            rt,
            alloc,
            stand_ins,
            here,
            kept: KeptFiles::new(alloc),
            is_name_new: [false; PLACES],
        };
        let servers = match folders.count()? {
            0 => FIRST_SERVERS,
            found => found,
        };
        folders.make(servers)?;
        folders.require_apart(servers)?;
        for server in 0..servers {
            folders.sync_all(server)?;
        }
        Ok((folders, servers))
    }

    // One more than the highest number of a server that has a folder, and 0 where none has.
    fn count(&self) -> Result<u32, Trouble>
        ensures { IfOk result (λ n. n ≤ max_servers) }
    {
        for higher in 0..MAX_SERVERS {
            let count = MAX_SERVERS - higher;
            if self.has_folder(count - 1)? {
                return Ok(count);
            }
        }
        Ok(0)
    }

    fn has_folder(&self, server: u32) -> Result<bool, Trouble> {
        let path = files::folder_path(self.alloc, server)?;
        let found = files::is_folder(&self.rt, path.as_str());
        at(self.alloc, path.as_str(), found)
    }

    // The highest comes first, so that a stop in between leaves the number of servers. Where one can't be made, or
    // they can't be made to last, those that were made are taken away.
    fn make(&self, servers: u32) -> Result<(), Trouble> {
        let mut made = Vec::with_capacity(self.alloc, servers as usize)?;
        let done = self.make_missing(servers, &mut made);
        if done.is_err() {
            for path in made.iter().rev() {
                // what can't be taken away stays, as after a stop
                let _gone = files::again(|| fs::remove_dir(&self.rt, path.as_str()));
            }
        }
        done
    }

    // Makes the folders that are missing, and answers in `made` which ones.
    fn make_missing(&self, servers: u32, made: &mut Vec<String>) -> Result<(), Trouble> {
        for server in (0..servers).rev() {
            if !self.has_folder(server)? {
                let path = files::folder_path(self.alloc, server)?;
                let done = files::again(|| fs::create_dir(&self.rt, path.as_str()));
                at(self.alloc, path.as_str(), done)?;
                made.push(path)?;
            }
        }
        at(self.alloc, HERE, self.here.sync())
    }

    // Two servers with one folder would take its files for copies, of which a recovery takes all but one away.
    fn require_apart(&self, servers: u32) -> Result<(), Trouble> {
        let mut seen = Vec::new(self.alloc);
        for server in 0..servers {
            let path = files::folder_path(self.alloc, server)?;
            let identity = files::identity(&self.rt, path.as_str());
            let identity = at(self.alloc, path.as_str(), identity)?;
            if seen.contains(&identity) {
                let error = Error::new(ErrorKind::AlreadyExists, "another server has this folder");
                return at(self.alloc, path.as_str(), Err(error));
            }
            seen.push(identity)?;
        }
        Ok(())
    }

    // Makes the files of volumes of a server, and their names, last.
    fn sync_all(&self, server: u32) -> Result<(), Trouble> {
        let folder = files::folder_path(self.alloc, server)?;
        let listed = files::again(|| files::list(&self.rt, folder.as_str()));
        for name in &at(self.alloc, folder.as_str(), listed)?.names {
            if file_names::read(name.as_str()).is_some() {
                let path = format!(in self.alloc; "{folder}/{name}")?;
                self.sync_at(path.as_str())?;
            }
        }
        self.sync_at(folder.as_str())
    }

    fn sync_at(&self, path: &str) -> Result<(), Trouble> {
        at(self.alloc, path, files::sync(&self.rt, path))
    }
}
