//! Folders and standard output as a site.
ghost use Rattle.std.specs.Prelude.{◌<◌, ◌≤◌};
ghost use Rattle.site_model.specs.Counts.{max_servers};

use crate::counted::Counted;
use crate::folders::Folders;
use crate::trouble::Trouble;
use site_model::{Failed, Site, SiteError};
use std::alloc::Global;
use std::fs::{File, Files};
use std::io::Print;

/// The folders `s00`, `s01`, .. of the current folder, each a server, and standard output, to which it says.
///
/// The current folder stays the same as long as the site is used, and nothing but a site changes what stands in the
/// servers' folders. One site at a time has them: it locks the current folder for as long as it is there. What isn't a
/// regular file, a link say, counts as nothing: no call reads or changes it. Where memory lacks, `list` answers that;
/// any other call fails then, with a fault of its server.
#[derive(Drop)]
pub struct DirSite<R: Files + Drop> {
    folders: Folders<R>,
    servers: u32,
    counted: Counted,
    ghost some: { 0 < servers },
    ghost few: { servers ≤ max_servers },
}

fn lacks_memory<T>(found: &Result<T, Trouble>) -> bool {
    match found {
        Ok(_) => false,
        Err(trouble) => trouble.is_of_memory(),
    }
}

impl<R: Files<File = File> + AllocGlobal + Print + Clone + Drop> DirSite<R> {
    ghost use Rattle.std.specs.Prelude.{◌≡◌, ◌<◌, ◌↔◌, IfOk, IsErr, IsSome};
    ghost use Rattle.site_model.specs.Counts.{CountsRead, CountsWrite};
    ghost use Rattle.site_model.specs.Tallies.{counts_of, AreNone};

    /// The site of the current folder. There are as many servers as the highest of the numbers 0 to 63 that has
    /// a folder asks for, and four where none has; folders that are missing are made. Every file of a volume that
    /// is found is synced, so that a stop can't change it. Nothing was counted yet.
    ///
    /// No file that it opens gets the number of standard input, output or error, also where those were closed. It
    /// fails where another site has the folder.
    pub fn open(rt: R, alloc: Global) -> Result<DirSite<R>, Trouble>
        ensures { IfOk result (λ site. AreNone (counts_of site.counted.tally)) }
    {
        let counted = Counted::new(alloc)?;
        let (folders, servers) = Folders::new(rt, alloc)?;
        Ok(DirSite {
            folders,
            servers,
            counted,
        })
    }

    /// As `open`, for who doesn't ask for the file or folder that failed.
    pub fn new(rt: R, alloc: Global) -> Result<DirSite<R>, SiteError>
        ensures { IfOk result (λ site. AreNone (counts_of site.counted.tally)) }
    {
        match DirSite::open(rt, alloc) {
            Ok(site) => Ok(site),
            Err(trouble) if trouble.is_of_memory() => Err(SiteError::Memory),
            Err(_) => Err(SiteError::Failed),
        }
    }

    /// Why the last call on a server that failed did, and None where none has.
    pub fn trouble(&self, server: u32) -> Option<&Trouble>
        ensures told { server < self.now.servers → 0 < (counts_of self.now.counted.tally).faults server
            → IsSome result }
    {
        if server < self.servers {
            self.counted.trouble(server)
        } else {
            None
        }
    }

    // Counts a call that writes, which the machine answered so.
    fn wrote(&mut self, server: u32, width: usize, done: Result<(), Trouble>) -> Result<(), Failed>
        requires { server < self.old.servers }
        ensures counts { CountsWrite server width (counts_of self.old.counted.tally)
            (counts_of self.new.counted.tally) (IsErr result) }
        ensures servers { self.new.servers ≡ self.old.servers }
        ensures outcome { IsErr result ↔ IsErr done }
    {
        match done {
            Ok(()) => {
                self.counted.count_write(server, width, None);
                Ok(())
            }
            Err(trouble) => {
                self.counted.count_write(server, width, Some(trouble));
                Err(Failed)
            }
        }
    }

    // Counts a call that doesn't write, which the machine answered so.
    fn looked<T: Drop>(
        &mut self,
        server: u32,
        width: usize,
        found: Result<T, Trouble>,
    ) -> Result<T, Failed>
        requires { server < self.old.servers }
        ensures counts { CountsRead server width (counts_of self.old.counted.tally)
            (counts_of self.new.counted.tally) (IsErr result) }
        ensures servers { self.new.servers ≡ self.old.servers }
        ensures outcome { IsErr result ↔ IsErr found }
    {
        match found {
            Ok(found) => {
                self.counted.count_read(server, width, None);
                Ok(found)
            }
            Err(trouble) => {
                self.counted.count_read(server, width, Some(trouble));
                Err(Failed)
            }
        }
    }
}

impl<R: Files<File = File> + AllocGlobal + Print + Clone + Drop> Site for DirSite<R> {
    ghost use Rattle.std.specs.Prelude.{false, None, []};
    ghost use Rattle.site_model.specs.Tallies.{counts_of};

    ghost tells = { false };

    ghost disk = { λ _. record { files = λ _. None; said = []; past = [] } };

    ghost counts = { λ s. counts_of s.counted.tally };

    ghost servers = { λ s. s.servers };

    fn servers(&self) -> u32 {
        self.servers
    }

    fn list(&mut self, _alloc: Global, server: u32) -> Result<Vec<String>, SiteError> {
        let found = self.folders.list(server);
        if lacks_memory(&found) {
            self.counted.count_read(server, 0, None);
            return Err(SiteError::Memory);
        }
        self.looked(server, 0, found).map_err(|_| SiteError::Failed)
    }

    fn size(&mut self, server: u32, name: &str) -> Result<Option<u64>, Failed> {
        let found = self.folders.size(server, name);
        self.looked(server, 0, found)
    }

    fn read(&mut self, server: u32, name: &str, at: u64, out: &mut [u8]) -> Result<(), Failed> {
        let filled = self.folders.read(server, name, at, out);
        self.looked(server, out.len(), filled)
    }

    fn append(&mut self, server: u32, name: &str, bytes: &[u8]) -> Result<(), Failed> {
        let done = self.folders.append(server, name, bytes);
        self.wrote(server, bytes.len(), done)
    }

    fn sync(&mut self, server: u32, name: &str) -> Result<(), Failed> {
        let done = self.folders.sync(server, name);
        self.wrote(server, 0, done)
    }

    fn cut(&mut self, server: u32, name: &str, length: u64) -> Result<(), Failed> {
        let done = self.folders.cut(server, name, length);
        self.wrote(server, 0, done)
    }

    fn rename(&mut self, server: u32, old: &str, new: &str) -> Result<(), Failed> {
        let done = self.folders.rename(server, old, new);
        self.wrote(server, 0, done)
    }

    fn remove(&mut self, server: u32, name: &str) -> Result<(), Failed> {
        let done = self.folders.remove(server, name);
        self.wrote(server, 0, done)
    }

    fn say(&mut self, bytes: &[u8]) -> Result<(), Failed> {
        match self.folders.say(bytes) {
            Ok(()) => {
                self.counted.count_say(false);
                Ok(())
            }
            Err(_) => {
                self.counted.count_say(true);
                Err(Failed)
            }
        }
    }
}
