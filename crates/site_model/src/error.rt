//! What a call of the outside can fail with.
ghost use Rattle.std.specs.Prelude.{◌≡◌};
ghost use Rattle.site_model.specs.declared.error.SiteError.TheVariants.{Failed as SiteFailed, Memory as SiteMemory};
ghost use Rattle.site_model.specs.declared.error.OpenFault.TheVariants.{Fault as OpenFaulted, Memory as OpenMemory};

use std::alloc::{AllocError, AllocFailed};
use std::error::Error;
use std::fmt;

/// A device failed.
#[derive(Clone, Copy, Debug, PartialEq, Eq)]
pub struct Failed;

/// Why a call failed that takes memory too.
#[derive(Clone, Copy, Debug, PartialEq, Eq)]
pub enum SiteError {
    Failed,
    Memory,
}

/// The device of this server failed.
#[derive(Clone, Copy, Debug, PartialEq, Eq)]
pub struct DeviceFault {
    pub server: u32,
}

/// Why a volume or a whole site couldn't be opened.
#[derive(Clone, Copy, Debug, PartialEq, Eq)]
pub enum OpenFault {
    /// The files of the volume break the rule of soundness with this number.
    Unsound { volume: u32, rule: u8 },
    /// The device of this server failed.
    Fault { server: u32 },
    Memory,
}

impl From<Failed> for SiteError {
    ghost from_gives = { λ _ error. error ≡ SiteFailed };

    fn from(_failed: Failed) -> SiteError {
        SiteError::Failed
    }
}

impl From<AllocError> for SiteError {
    ghost from_gives = { λ _ error. error ≡ SiteMemory };

    fn from(_error: AllocError) -> SiteError {
        SiteError::Memory
    }
}

impl<T: Drop> From<AllocFailed<T>> for SiteError {
    ghost from_gives = { λ _ error. error ≡ SiteMemory };

    fn from(_error: AllocFailed<T>) -> SiteError {
        SiteError::Memory
    }
}

impl From<DeviceFault> for OpenFault {
    ghost from_gives = { λ fault error. error ≡ OpenFaulted fault.server };

    fn from(fault: DeviceFault) -> OpenFault {
        OpenFault::Fault {
            server: fault.server,
        }
    }
}

impl From<AllocError> for OpenFault {
    ghost from_gives = { λ _ error. error ≡ OpenMemory };

    fn from(_error: AllocError) -> OpenFault {
        OpenFault::Memory
    }
}

impl<T: Drop> From<AllocFailed<T>> for OpenFault {
    ghost from_gives = { λ _ error. error ≡ OpenMemory };

    fn from(_error: AllocFailed<T>) -> OpenFault {
        OpenFault::Memory
    }
}

impl fmt::Display for Failed {
    fn fmt<W: fmt::Write>(&self, f: &mut fmt::Formatter<W>) -> fmt::Result {
        f.write_str("a device failed")
    }
}

impl fmt::Display for SiteError {
    fn fmt<W: fmt::Write>(&self, f: &mut fmt::Formatter<W>) -> fmt::Result {
        match self {
            SiteError::Failed => f.write_str("a device failed"),
            SiteError::Memory => f.write_str("out of memory"),
        }
    }
}

impl fmt::Display for DeviceFault {
    fn fmt<W: fmt::Write>(&self, f: &mut fmt::Formatter<W>) -> fmt::Result {
        write!(f, "the device of server {} failed", self.server)
    }
}

impl fmt::Display for OpenFault {
    fn fmt<W: fmt::Write>(&self, f: &mut fmt::Formatter<W>) -> fmt::Result {
        match self {
            OpenFault::Unsound { volume, rule } => {
                write!(f, "volume {volume} breaks rule {rule}")
            }
            OpenFault::Fault { server } => write!(f, "the device of server {server} failed"),
            OpenFault::Memory => f.write_str("out of memory"),
        }
    }
}

impl Error for Failed {}

impl Error for SiteError {}

impl Error for DeviceFault {}

impl Error for OpenFault {}
