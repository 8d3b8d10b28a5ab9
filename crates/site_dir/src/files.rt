//! Files and folders by their paths.
ghost use Rattle.std.specs.Prelude.{◌≤◌, length, IfOk};

use crate::disk_file::DiskFile;
use std::alloc::{AllocError, Global};
use std::fs::{File, Files, OpenOptions};
use std::io::{Error, ErrorKind, Read};
use std::os::unix::fs::MetadataExt;
use std::{fs, io, str};

// Room for some of a folder's names, as the system gives them.
const NAMES: usize = 8192;

/// What stands at a path, where no link is followed.
#[derive(Clone, Copy, Debug, PartialEq, Eq)]
pub enum Standing {
    Nothing,
    File { length: u64 },
    /// A folder, a link or what else isn't a regular file.
    Other,
}

/// The regular files of a folder.
#[derive(Drop)]
pub struct Listing {
    pub names: Vec<String>,
    /// Whether something in the folder has a name that isn't text, so that no call can name it.
    pub has_other_names: bool,
}

/// Makes a call again as long as a signal interrupts it.
pub fn again<T, F: FnMut() -> io::Result<T>>(mut call: F) -> io::Result<T>
    requires { F.IsAlwaysCallable call }
{
    for _ in 0..u64::MAX {
        match call() {
            Err(e) if e.kind() == ErrorKind::Interrupted => {}
            done => return done,
        }
    }
    Err(Error::from(ErrorKind::Interrupted))
}

/// A read that a signal interrupts took nothing, and is made again.
pub fn read_some<I: Read>(reader: &mut I, out: &mut [u8]) -> io::Result<usize>
    ensures { IfOk result (λ n. n ≤ length out.new) }
{
    for _ in 0..u64::MAX {
        match reader.read(out) {
            Err(e) if e.kind() == ErrorKind::Interrupted => {}
            done => return done,
        }
    }
    Err(Error::from(ErrorKind::Interrupted))
}

/// The folder of a server: `s00`, `s01` and so on.
pub fn folder_path(alloc: Global, server: u32) -> Result<String, AllocError> {
    format!(in alloc; "s{server:02}")
}

/// The path of a server's file. A name that would lead out of the folder is refused.
pub fn file_path(alloc: Global, server: u32, name: &str) -> io::Result<String> {
    if name.is_empty() || name == "." || name == ".." || name.contains('/') {
        return Err(Error::from(ErrorKind::InvalidInput));
    }
    Ok(format!(in alloc; "s{server:02}/{name}")?)
}

/// Whether a folder stands there, perhaps by a link.
pub fn is_folder<R: Files>(rt: &R, path: &str) -> io::Result<bool> {
    match again(|| fs::metadata(rt, path)) {
        Ok(found) => Ok(found.is_dir()),
        Err(e) if e.kind() == ErrorKind::NotFound => Ok(false),
        Err(e) => Err(e),
    }
}

/// The numbers of the device and of the file or folder on it, which no other one has.
pub fn identity<R: Files>(rt: &R, path: &str) -> io::Result<(u64, u64)> {
    let found = again(|| fs::metadata(rt, path))?;
    Ok((found.dev(), found.ino()))
}

/// What stands there.
pub fn look<R: Files>(rt: &R, path: &str) -> io::Result<Standing> {
    match again(|| fs::symlink_metadata(rt, path)) {
        Ok(found) if found.is_file() => Ok(Standing::File {
            length: found.len(),
        }),
        Ok(_) => Ok(Standing::Other),
        Err(e) if e.kind() == ErrorKind::NotFound => Ok(Standing::Nothing),
        Err(e) => Err(e),
    }
}

/// Fails where something stands that isn't a regular file. Answers whether a file stands.
pub fn has_file<R: Files>(rt: &R, path: &str) -> io::Result<bool> {
    match look(rt, path)? {
        Standing::File { .. } => Ok(true),
        Standing::Nothing => Ok(false),
        Standing::Other => Err(Error::new(ErrorKind::InvalidInput, "it isn't a regular file")),
    }
}

/// Fails where no file stands.
pub fn require<R: Files>(rt: &R, path: &str) -> io::Result<()> {
    if has_file(rt, path)? {
        Ok(())
    } else {
        Err(Error::from(ErrorKind::NotFound))
    }
}

/// Opens a file to be read anywhere and written at its end.
pub fn open<R: Files<File = File>>(rt: &R, path: &str) -> io::Result<DiskFile> {
    require(rt, path)?;
    DiskFile::open(rt, path, OpenOptions::new().read(true).append(true))
}

/// Makes a file where nothing stands, not even a link, and opens it so.
pub fn create<R: Files<File = File>>(rt: &R, path: &str) -> io::Result<DiskFile> {
    let mut how = OpenOptions::new();
    how.read(true).append(true).create_new(true);
    DiskFile::open(rt, path, &how)
}

/// Makes the contents of a file, or the names in a folder, last.
pub fn sync<R: Files<File = File>>(rt: &R, path: &str) -> io::Result<()> {
    DiskFile::open(rt, path, OpenOptions::new().read(true))?.sync()
}

/// The regular files of a folder, which may stand behind a link.
pub fn list<R: Files + AllocGlobal>(rt: &R, folder: &str) -> io::Result<Listing> {
    let alloc = rt.alloc();
    let mut listing = Listing {
        names: Vec::new(alloc),
        has_other_names: false,
    };
    // no link is followed at the end of this path
    let inside = format!(in alloc; "{folder}/.")?;
    let mut dir = again(|| rt.open_dir(inside.as_str()))?;
    let mut names = vec![in alloc; 0; NAMES]?;
    for _ in 0..u64::MAX {
        match read_some(&mut dir, names.as_mut_slice())? {
            0 => break,
            read => add_names(rt, folder, &names[..read], &mut listing)?,
        }
    }
    Ok(listing)
}

// Adds the regular files of names that each end with a zero.
fn add_names<R: Files + AllocGlobal>(
    rt: &R,
    folder: &str,
    names: &[u8],
    listing: &mut Listing,
) -> io::Result<()> {
    for name in names.split(|byte| *byte == 0) {
        match str::from_utf8(name) {
            Ok("" | "." | "..") => {}
            Ok(name) => {
                if is_listed(rt, folder, name)? {
                    listing.names.push(name.to_string(rt.alloc())?)?;
                }
            }
            Err(_) => listing.has_other_names = true,
        }
    }
    Ok(())
}

// What can't be looked at is passed over where no file of a volume has its name.
fn is_listed<R: Files + AllocGlobal>(rt: &R, folder: &str, name: &str) -> io::Result<bool> {
    let path = format!(in rt.alloc(); "{folder}/{name}")?;
    match look(rt, path.as_str()) {
        Ok(found) => Ok(matches!(found, Standing::File { .. })),
        Err(_) if file_names::read(name).is_none() => Ok(false),
        Err(e) => Err(e),
    }
}
