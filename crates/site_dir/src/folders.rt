//! The servers' folders and their files. Nothing is counted here.
ghost use Rattle.std.specs.Prelude.{◌<◌};
ghost use Rattle.site_model.specs.Counts.{max_servers};

use crate::disk_file::DiskFile;
use crate::files;
use crate::files::Standing;
use crate::kept::KeptFiles;
use crate::trouble::{Trouble, at, at_file};
use site_model::PLACES;
use std::alloc::Global;
use std::fs::{File, Files};
use std::io::{Error, ErrorKind, Print, Write};
use std::{fs, io};

// What the system says where this program, or all programs together, have too many files open.
const TOO_MANY_OPEN_FILES: [i32; 2] = [24, 23];

/// Folders with files, of which some are kept open, and standard output.
#[derive(Drop)]
pub struct Folders<R: Files + Drop> {
    pub(crate) rt: R,
    pub(crate) alloc: Global,
    // hold the numbers of standard input, output and error that were free
    pub(crate) stand_ins: Vec<File>,
    // the folder of the servers' folders, which is locked
    pub(crate) here: DiskFile,
    pub(crate) kept: KeptFiles<DiskFile>,
    // by server, whether a name came, went or changed and may not last yet
    pub(crate) is_name_new: [bool; PLACES],
}

fn wants_descriptors(error: &Error) -> bool {
    match error.raw_os_error() {
        Some(code) => TOO_MANY_OPEN_FILES.contains(&code),
        None => false,
    }
}

impl<R: Files<File = File> + AllocGlobal + Print + Clone + Drop> Folders<R> {
    ghost use Rattle.std.specs.Prelude.{◌<◌, IfOk};
    ghost use Rattle.site_dir.specs.Kept.{IsAt};

    /// Makes a call again as long as a signal interrupts it, and as long as it wants a file open less while one is
    /// kept that can be closed.
    pub(crate) fn attempt<T, F: FnMut(&R) -> io::Result<T>>(&mut self, mut call: F) -> io::Result<T>
        requires { F.IsAlwaysCallable call }
    {
        for _ in 0..u64::MAX {
            match call(&self.rt) {
                Err(e) if e.kind() == ErrorKind::Interrupted => {}
                Err(e) if wants_descriptors(&e) && self.kept.close_first() => {}
                done => return done,
            }
        }
        Err(Error::from(ErrorKind::Interrupted))
    }

    // Makes the names of a server's files last. Where that fails, the next sync there tries it again.
    fn sync_names(&mut self, server: u32) -> Result<(), Trouble>
        requires { server < max_servers }
    {
        self.is_name_new[server as usize] = true;
        let folder = files::folder_path(self.alloc, server)?;
        let synced = self.attempt(|rt| files::sync(rt, folder.as_str()));
        at(self.alloc, folder.as_str(), synced)?;
        self.is_name_new[server as usize] = false;
        Ok(())
    }

    // The path of a server's file.
    fn path(&self, server: u32, name: &str) -> Result<String, Trouble> {
        let path = files::file_path(self.alloc, server, name);
        at_file(self.alloc, server, name, path)
    }

    fn open(&mut self, server: u32, path: &str, is_made: bool) -> io::Result<DiskFile>
        requires { server < max_servers }
    {
        match self.attempt(|rt| files::open(rt, path)) {
            Err(e) if is_made && e.kind() == ErrorKind::NotFound => {
                self.is_name_new[server as usize] = true;
                self.attempt(|rt| files::create(rt, path))
            }
            found => found,
        }
    }

    // Where a file stands among those that are kept. It may be made.
    fn opened(&mut self, server: u32, name: &str, is_made: bool) -> Result<usize, Trouble>
        requires { server < max_servers }
        ensures { IfOk result (λ at. IsAt (server, name.now) self.new.kept.files.items at) }
    {
        if let Some(place) = self.kept.position(server, name) {
            return Ok(place);
        }
        let path = self.path(server, name)?;
        let file = self.open(server, path.as_str(), is_made);
        let file = at(self.alloc, path.as_str(), file)?;
        Ok(self.kept.keep(self.alloc, server, name, file)?)
    }

    /// The names of the regular files in the server's folder. Fails where a name there isn't text.
    pub fn list(&mut self, server: u32) -> Result<Vec<String>, Trouble> {
        let folder = files::folder_path(self.alloc, server)?;
        let listing = self.attempt(|rt| files::list(rt, folder.as_str()));
        let listing = at(self.alloc, folder.as_str(), listing)?;
        if listing.has_other_names {
            let error = Error::new(ErrorKind::InvalidFilename, "a name in it isn't text");
            return at(self.alloc, folder.as_str(), Err(error));
        }
        Ok(listing.names)
    }

    /// The length of a file, and None where no regular file stands.
    pub fn size(&mut self, server: u32, name: &str) -> Result<Option<u64>, Trouble> {
        let path = self.path(server, name)?;
        match at(
            self.alloc,
            path.as_str(),
            files::look(&self.rt, path.as_str()),
        )? {
            Standing::File { length } => Ok(Some(length)),
            _ => Ok(None),
        }
    }

    /// Fills `out` whole, or fails.
    pub fn read(
        &mut self,
        server: u32,
        name: &str,
        from: u64,
        out: &mut [u8],
    ) -> Result<(), Trouble>
        requires { server < max_servers }
    {
        let place = self.opened(server, name, false)?;
        let filled = self.kept.files[place].file.read(from, out);
        at_file(self.alloc, server, name, filled)
    }

    /// Writes the bytes at the file's end. An absent file is made.
    pub fn append(&mut self, server: u32, name: &str, bytes: &[u8]) -> Result<(), Trouble>
        requires { server < max_servers }
    {
        let place = self.opened(server, name, true)?;
        let done = self.kept.files[place].file.append(bytes);
        at_file(self.alloc, server, name, done)
    }

    /// Makes the file last, and its name where that is new.
    pub fn sync(&mut self, server: u32, name: &str) -> Result<(), Trouble>
        requires { server < max_servers }
    {
        let place = self.opened(server, name, false)?;
        let done = self.kept.files[place].file.sync();
        at_file(self.alloc, server, name, done)?;
        if self.is_name_new[server as usize] {
            self.sync_names(server)?;
        }
        Ok(())
    }

    /// Ends the file at a length that is at most its own, for good.
    pub fn cut(&mut self, server: u32, name: &str, length: u64) -> Result<(), Trouble>
        requires { server < max_servers }
    {
        let place = self.opened(server, name, false)?;
        let done = self.kept.files[place].file.cut(length);
        at_file(self.alloc, server, name, done)
    }

    /// Gives a file another name, for good.
    pub fn rename(&mut self, server: u32, old: &str, new: &str) -> Result<(), Trouble>
        requires { server < max_servers }
    {
        let from = self.path(server, old)?;
        let to = self.path(server, new)?;
        let found = files::require(&self.rt, from.as_str());
        at(self.alloc, from.as_str(), found)?;
        let replaced = files::has_file(&self.rt, to.as_str());
        at(self.alloc, to.as_str(), replaced)?;
        self.kept.close(server, old);
        self.kept.close(server, new);
        let done = files::again(|| fs::rename(&self.rt, from.as_str(), to.as_str()));
        at(self.alloc, from.as_str(), done)?;
        self.sync_names(server)
    }

    /// Takes a file away, for good.
    pub fn remove(&mut self, server: u32, name: &str) -> Result<(), Trouble>
        requires { server < max_servers }
    {
        let path = self.path(server, name)?;
        let found = files::require(&self.rt, path.as_str());
        at(self.alloc, path.as_str(), found)?;
        self.kept.close(server, name);
        let done = files::again(|| fs::remove_file(&self.rt, path.as_str()));
        at(self.alloc, path.as_str(), done)?;
        self.sync_names(server)
    }

    /// Writes the bytes to standard output, whole and at once.
    pub fn say(&self, bytes: &[u8]) -> io::Result<()> {
        let mut output = io::writer(&self.rt);
        output.write_all(bytes)?;
        output.flush()
    }
}
