//! What a site is asked, with its names and bytes borrowed or kept.
ghost use Rattle.std.specs.Prelude.{◌≡◌, IfOk};
ghost use Rattle.site_mem.specs.Events.{event_now, event_kept};

use std::alloc::{AllocError, Global};

/// A call that can change the site, or what stood in it before the first call.
#[derive(Drop)]
pub enum Asked<N, B> {
    /// A firm file, which is no call.
    Add { server: u32, name: N, bytes: B },
    /// Something said before, which is no call.
    Tell { bytes: B },
    Append { server: u32, name: N, bytes: B },
    Sync { server: u32, name: N },
    Cut { server: u32, name: N, length: u64 },
    Rename { server: u32, old: N, new: N },
    Remove { server: u32, name: N },
    Say { bytes: B },
}

/// What is asked now.
pub type Request<'a> = Asked<&'a str, &'a [u8]>;

/// What was asked.
pub type Recorded = Asked<String, Vec<u8>>;

/// The same with names and bytes of its own.
pub fn recorded(alloc: Global, request: &Request<'_>) -> Result<Recorded, AllocError>
    ensures { IfOk result (λ kept. event_kept kept ≡ event_now request.now) }
{
    Ok(match request {
        Asked::Add {
            server,
            name,
            bytes,
        } => Asked::Add {
            server: *server,
            name: name.to_string(alloc)?,
            bytes: bytes.to_vec(alloc)?,
        },
        Asked::Tell { bytes } => Asked::Tell {
            bytes: bytes.to_vec(alloc)?,
        },
        Asked::Append {
            server,
            name,
            bytes,
        } => Asked::Append {
            server: *server,
            name: name.to_string(alloc)?,
            bytes: bytes.to_vec(alloc)?,
        },
        Asked::Sync { server, name } => Asked::Sync {
            server: *server,
            name: name.to_string(alloc)?,
        },
        Asked::Cut {
            server,
            name,
            length,
        } => Asked::Cut {
            server: *server,
            name: name.to_string(alloc)?,
            length: *length,
        },
        Asked::Rename { server, old, new } => Asked::Rename {
            server: *server,
            old: old.to_string(alloc)?,
            new: new.to_string(alloc)?,
        },
        Asked::Remove { server, name } => Asked::Remove {
            server: *server,
            name: name.to_string(alloc)?,
        },
        Asked::Say { bytes } => Asked::Say {
            bytes: bytes.to_vec(alloc)?,
        },
    })
}

/// The same with names and bytes of the record.
pub fn request_of(asked: &Recorded) -> Request<'_>
    ensures { event_now result ≡ event_kept asked.now }
{
    match asked {
        Asked::Add {
            server,
            name,
            bytes,
        } => Asked::Add {
            server: *server,
            name: name.as_str(),
            bytes: bytes.as_slice(),
        },
        Asked::Tell { bytes } => Asked::Tell {
            bytes: bytes.as_slice(),
        },
        Asked::Append {
            server,
            name,
            bytes,
        } => Asked::Append {
            server: *server,
            name: name.as_str(),
            bytes: bytes.as_slice(),
        },
        Asked::Sync { server, name } => Asked::Sync {
            server: *server,
            name: name.as_str(),
        },
        Asked::Cut {
            server,
            name,
            length,
        } => Asked::Cut {
            server: *server,
            name: name.as_str(),
            length: *length,
        },
        Asked::Rename { server, old, new } => Asked::Rename {
            server: *server,
            old: old.as_str(),
            new: new.as_str(),
        },
        Asked::Remove { server, name } => Asked::Remove {
            server: *server,
            name: name.as_str(),
        },
        Asked::Say { bytes } => Asked::Say {
            bytes: bytes.as_slice(),
        },
    }
}
