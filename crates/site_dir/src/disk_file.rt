//! Open files and folders, apart from standard input, output and error.
ghost use Rattle.std.specs.Prelude.{pos, ◌<ℤ◌};
ghost use Rattle.std.specs.Fd.{file_raw_fd};

use crate::files::again;
use std::alloc::Global;
use std::fs::{File, Files, OpenOptions, TryLockError};
use std::io;
use std::io::{Error, ErrorKind, Write};
use std::os::fd::AsRawFd;
use std::os::unix::fs::FileExt;

// The number of standard error. Those of standard input and output are below it.
const STANDARD_ERROR: i32 = 2;

/// An open file or folder, whose number isn't one of standard input, output and error.
#[derive(Drop)]
pub struct DiskFile {
    file: File,
    ghost apart: { pos 2 <ℤ file_raw_fd file },
}

impl DiskFile {
    // A file with one of those numbers is given back.
    fn new(file: File) -> Result<DiskFile, File> {
        if file.as_raw_fd() > STANDARD_ERROR {
            Ok(DiskFile { file })
        } else {
            Err(file)
        }
    }

    /// Opens what is at a path.
    pub fn open<R: Files<File = File>>(rt: &R, path: &str, how: &OpenOptions) -> io::Result<Self> {
        DiskFile::new(how.open(rt, path)?).map_err(|_| Error::from(ErrorKind::AlreadyExists))
    }

    /// Opens a folder, as often as it takes until no number of standard input, output and error is free. Those
    /// openings that got one of these numbers stand there for as long as they are kept: a folder that is open can
    /// be neither read nor written as a file.
    pub fn open_apart<R: Files<File = File>>(
        rt: &R,
        alloc: Global,
        folder: &str,
    ) -> io::Result<(Vec<File>, DiskFile)> {
        let mut stand_ins = Vec::new(alloc);
        for _ in 0..=STANDARD_ERROR {
            match DiskFile::new(File::open(rt, folder)?) {
                Ok(file) => return Ok((stand_ins, file)),
                Err(stand_in) => stand_ins.push(stand_in)?,
            }
        }
        let file = DiskFile::open(rt, folder, OpenOptions::new().read(true))?;
        Ok((stand_ins, file))
    }

    /// Locks it against all other openings of it for as long as it is open. Fails where one of them has locked it.
    pub fn lock(&self) -> io::Result<()> {
        match self.file.try_lock() {
            Ok(()) => Ok(()),
            Err(TryLockError::WouldBlock) => Err(Error::new(
                ErrorKind::ResourceBusy,
                "another run uses this folder",
            )),
            Err(TryLockError::Error(e)) => Err(e),
        }
    }

    /// Makes the contents of the file, or the names in the folder, last.
    pub fn sync(&self) -> io::Result<()> {
        self.file.sync_all()
    }

    /// Fills `out` whole with the bytes from this place on, or fails.
    pub fn read(&self, at: u64, out: &mut [u8]) -> io::Result<()> {
        self.file.read_exact_at(out, at)
    }

    /// Writes the bytes at the file's end.
    pub fn append(&self, bytes: &[u8]) -> io::Result<()> {
        let mut file = &self.file;
        file.write_all(bytes)
    }

    /// Ends the file at a length that is at most its own, for good.
    pub fn cut(&self, length: u64) -> io::Result<()> {
        if length > again(|| self.file.metadata())?.len() {
            return Err(Error::from(ErrorKind::InvalidInput));
        }
        self.file.set_len(length)?;
        self.file.sync_all()
    }
}
