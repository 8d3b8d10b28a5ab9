//! The files of a volume at its server, by name.
ghost use Rattle.std.specs.Prelude.{◌≡◌, IfOk};
ghost use Rattle.volume_vacuum.specs.Home.{IsNamed};

use file_names::{Kind, final_name, temp_name};
use std::alloc::{AllocError, Global};

/// The names of the two files of a volume, and of those that take their places.
#[derive(Drop)]
pub(crate) struct Home {
    pub server: u32,
    pub volume: u32,
    pub dat: String,
    pub idx: String,
    pub cpd: String,
    pub cpx: String,
    pub cpd_temp: String,
    pub cpx_temp: String,
}

/// The names for this volume at this server.
pub(crate) fn home_of(alloc: Global, server: u32, volume: u32) -> Result<Home, AllocError>
    ensures own { IfOk result (λ home. (home.server ≡ server) × (home.volume ≡ volume)) }
    ensures named { IfOk result IsNamed }
{
    Ok(Home {
        server,
        volume,
        dat: final_name(alloc, volume, Kind::Dat)?,
        idx: final_name(alloc, volume, Kind::Idx)?,
        cpd: final_name(alloc, volume, Kind::Cpd)?,
        cpx: final_name(alloc, volume, Kind::Cpx)?,
        cpd_temp: temp_name(alloc, volume, Kind::Cpd)?,
        cpx_temp: temp_name(alloc, volume, Kind::Cpx)?,
    })
}
