//! Why a whole file was not read or written.
ghost use Rattle.std.specs.Prelude.{◌≡◌};
ghost use Rattle.whole_file.specs.declared.fault.FileFault.TheVariants.{Memory as FileMemory};
ghost use Rattle.whole_file.specs.Faults.{opening_of};

use site_model::{DeviceFault, OpenFault};
use std::alloc::AllocError;

/// Why a file was not read or written.
#[derive(Clone, Copy, Debug, PartialEq, Eq)]
pub enum FileFault {
    Fault(DeviceFault),
    Memory,
}

impl From<AllocError> for FileFault {
    ghost from_gives = { λ _ fault. fault ≡ FileMemory };

    fn from(_error: AllocError) -> FileFault {
        FileFault::Memory
    }
}

impl From<FileFault> for OpenFault {
    ghost from_gives = { λ fault opening. opening ≡ opening_of fault };

    fn from(fault: FileFault) -> OpenFault {
        match fault {
            FileFault::Fault(device) => OpenFault::from(device),
            FileFault::Memory => OpenFault::Memory,
        }
    }
}
