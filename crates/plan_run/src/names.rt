//! The names of the files of a list.
ghost use Rattle.std.specs.Prelude.{◌≡◌, ◌<◌, All, IfOk, [], length, map, slice_index_or};
ghost use Rattle.std.specs.String.{string_bytes};
ghost use Rattle.file_names.specs.Names.{IsKind};
ghost use Rattle.plan_steps.specs.Order.{names_of};
ghost use Rattle.plan_run.specs.Names.{AreNamed, name_for};

use file_names::{FileName, spell};
use plan_steps::FileState;
use std::alloc::{AllocError, Global};

/// The temporary and the final names of the files of a list, in its order.
#[derive(Drop)]
pub struct FileNames {
    temps: Vec<String>,
    lasts: Vec<String>,
}

impl FileNames {
    /// The names of these files of a volume.
    pub(crate) fn new(
        alloc: Global,
        volume: u32,
        files: &[FileState],
    ) -> Result<FileNames, AllocError>
        requires { All (λ file. IsKind file.kind) files.now }
        ensures { IfOk result (AreNamed volume (names_of files.now)) }
    {
        let temps = spelled(alloc, volume, files, true)?;
        let lasts = spelled(alloc, volume, files, false)?;
        Ok(FileNames { temps, lasts })
    }

    /// The temporary name of the file at a place of the list.
    pub(crate) fn temp(&self, at: usize) -> &str
        requires { at < length self.now.temps.items }
        ensures { result.now ≡ slice_index_or (map string_bytes self.now.temps.items) at [] }
    {
        self.temps[at].as_str()
    }

    /// The final name of the file at a place of the list.
    pub(crate) fn last(&self, at: usize) -> &str
        requires { at < length self.now.lasts.items }
        ensures { result.now ≡ slice_index_or (map string_bytes self.now.lasts.items) at [] }
    {
        self.lasts[at].as_str()
    }
}

// The temporary names of these files, or the final ones.
fn spelled(
    alloc: Global,
    volume: u32,
    files: &[FileState],
    temp: bool,
) -> Result<Vec<String>, AllocError>
    requires { All (λ file. IsKind file.kind) files.now }
    ensures { IfOk result (λ names. map string_bytes names.items
        ≡ map (name_for volume temp) (names_of files.now)) }
{
    let mut names = Vec::new(alloc);
    for file in files {
        let name = FileName {
            volume,
            kind: file.kind,
            temp,
        };
        names.push(spell(alloc, &name)?)?;
    }
    Ok(names)
}
