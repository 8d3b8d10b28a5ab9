//! Why a call on the machine failed.
use std::alloc::{AllocError, Global};
use std::fmt::{Display, Formatter};
use std::io::{Error, ErrorKind};
use std::{fmt, io};

/// Why a call on the machine failed: the file or folder, and what the system said of it.
#[derive(Debug, Drop)]
pub struct Trouble {
    // None where memory lacks for it
    path: Option<String>,
    error: Error,
}

/// Says of an error at which file or folder it came.
pub fn at<T>(alloc: Global, path: &str, outcome: io::Result<T>) -> Result<T, Trouble> {
    outcome.map_err(|error| Trouble {
        path: path.to_string(alloc).ok(),
        error,
    })
}

/// Says of an error at which file of a server it came.
pub fn at_file<T>(
    alloc: Global,
    server: u32,
    name: &str,
    outcome: io::Result<T>,
) -> Result<T, Trouble> {
    outcome.map_err(|error| Trouble {
        path: format!(in alloc; "s{server:02}/{name}").ok(),
        error,
    })
}

impl Trouble {
    /// Whether memory was lacking.
    pub fn is_of_memory(&self) -> bool {
        self.error.kind() == ErrorKind::OutOfMemory
    }
}

impl Display for Trouble {
    fn fmt<W: fmt::Write>(&self, f: &mut Formatter<W>) -> fmt::Result {
        let error = self.error;
        match &self.path {
            Some(path) => write!(f, "{path}: {error}"),
            None => write!(f, "{error}"),
        }
    }
}

impl From<AllocError> for Trouble {
    fn from(error: AllocError) -> Trouble {
        Trouble {
            path: None,
            error: Error::from(error),
        }
    }
}

impl<T: Drop> From<std::alloc::AllocFailed<T>> for Trouble {
    fn from(error: std::alloc::AllocFailed<T>) -> Trouble {
        Trouble::from(AllocError::from(error))
    }
}
