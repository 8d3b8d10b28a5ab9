//! Why a call on a plain volume fails.
ghost use Rattle.std.specs.Prelude.{◌≡◌};
ghost use Rattle.dat_volume.specs.declared.fault.VolumeFault.TheVariants.{Memory as VolumeMemory};
ghost use Rattle.dat_volume.specs.declared.fault.GetFault.TheVariants.{Memory as GetMemory};
ghost use Rattle.dat_volume.specs.Causes.{opening_of, reading_of};

use site_model::{DeviceFault, OpenFault};
use std::alloc::AllocError;
use whole_file::FileFault;
use world_model::types::What;

/// Why a volume was not made or changed.
#[derive(Clone, Copy, Debug, PartialEq, Eq)]
pub enum VolumeFault {
    Fault(DeviceFault),
    Memory,
}

/// Why a needle was not read. `Damaged`: the record at the index entry's place is not the entry's, since the two
/// numbers differ.
#[derive(Clone, Copy, Debug, PartialEq, Eq)]
pub enum GetFault {
    Fault(DeviceFault),
    Damaged { what: What, a: u64, b: u64 },
    Memory,
}

impl From<AllocError> for VolumeFault {
    ghost from_gives = { λ _ fault. fault ≡ VolumeMemory };

    fn from(_error: AllocError) -> VolumeFault {
        VolumeFault::Memory
    }
}

impl From<AllocError> for GetFault {
    ghost from_gives = { λ _ fault. fault ≡ GetMemory };

    fn from(_error: AllocError) -> GetFault {
        GetFault::Memory
    }
}

impl From<FileFault> for GetFault {
    ghost from_gives = { λ fault reading. reading ≡ reading_of fault };

    fn from(fault: FileFault) -> GetFault {
        match fault {
            FileFault::Fault(device) => GetFault::Fault(device),
            FileFault::Memory => GetFault::Memory,
        }
    }
}

impl From<VolumeFault> for OpenFault {
    ghost from_gives = { λ fault opening. opening ≡ opening_of fault };

    fn from(fault: VolumeFault) -> OpenFault {
        match fault {
            VolumeFault::Fault(device) => OpenFault::from(device),
            VolumeFault::Memory => OpenFault::Memory,
        }
    }
}
