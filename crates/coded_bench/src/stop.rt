//! Why nothing is measured.
use std::io::{Error, ErrorKind};

pub fn stopped(why: &'static str) -> Error {
    Error::new(ErrorKind::Other, why)
}
