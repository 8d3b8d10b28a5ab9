//! Why a read that takes its own memory fails.
ghost use Rattle.std.specs.Prelude.{◌≡◌};
ghost use Rattle.degraded_read.specs.declared.fault.ReadFault.TheVariants.{Fault as ReadFaulted, Memory as ReadMemory};

use site_model::DeviceFault;
use std::alloc::AllocError;

/// Why a range was not read.
#[derive(Clone, Copy, Debug, PartialEq, Eq)]
pub enum ReadFault {
    Fault(DeviceFault),
    Memory,
}

impl From<DeviceFault> for ReadFault {
    ghost from_gives = { λ fault read. read ≡ ReadFaulted fault };

    fn from(fault: DeviceFault) -> ReadFault {
        ReadFault::Fault(fault)
    }
}

impl From<AllocError> for ReadFault {
    ghost from_gives = { λ _ read. read ≡ ReadMemory };

    fn from(_error: AllocError) -> ReadFault {
        ReadFault::Memory
    }
}
