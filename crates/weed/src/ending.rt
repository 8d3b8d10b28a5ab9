//! How the program ends.
ghost use Rattle.std.specs.Prelude.{◌≡◌};
ghost use Rattle.weed.specs.Endings.{ending_number};

use std::fmt;
use std::fmt::{Display, Formatter};
use weed_shell::Status;

// The number of an ending without a site, which is none of a status.
const NO_SITE: u8 = 8;

/// How the program ends.
#[derive(Clone, Copy, Debug, PartialEq, Eq)]
pub enum Ending {
    /// The script was run, or its words were refused.
    Ran(Status),
    /// The folders could not be locked, read, made or synced.
    NoSite,
}

impl Ending {
    /// The number with which the program ends.
    pub fn number(self) -> u8
        ensures { result ≡ ending_number self }
    {
        match self {
            Ending::Ran(status) => status.number(),
            Ending::NoSite => NO_SITE,
        }
    }
}

impl Display for Ending {
    ghost use Rattle.std.specs.Prelude.{Some};
    ghost use Rattle.weed.specs.Endings.{ending_text};

    ghost output = { λ ending. Some (ending_text ending) };

    fn fmt<W: fmt::Write>(&self, f: &mut Formatter<W>) -> fmt::Result {
        match *self {
            Ending::Ran(status) => StatusLine { status }.fmt(f),
            Ending::NoSite => write!(f, "no site"),
        }
    }
}

// The line of a run with this status.
#[derive(Clone, Copy)]
struct StatusLine {
    status: Status,
}

impl Display for StatusLine {
    ghost use Rattle.std.specs.Prelude.{Some};
    ghost use Rattle.weed.specs.Endings.{status_text};

    ghost output = { λ line. Some (status_text line.status) };

    fn fmt<W: fmt::Write>(&self, f: &mut Formatter<W>) -> fmt::Result {
        match self.status {
            Status::Done => write!(f, "done"),
            Status::Usage => write!(f, "usage"),
            Status::Fault { server } => write!(f, "fault of server {server}"),
            Status::Memory => write!(f, "memory"),
            Status::Unsound { volume, rule } => write!(f, "volume {volume} breaks rule {rule}"),
            Status::SourceFault => write!(f, "input fault"),
            Status::SayFault => write!(f, "output fault"),
            Status::TooMuch => write!(f, "input too long"),
        }
    }
}
