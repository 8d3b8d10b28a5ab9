//! Appends of many bytes, in pieces.
ghost use Rattle.std.specs.Prelude.{◌≡◌, ◌<◌, ◌+◌, ◌++◌, IsTrue, IsErr, OnOk, length};
ghost use Rattle.site_model.specs.Disk.{grown, firm_file, bytes_of};
ghost use Rattle.site_model.specs.Counts.{CallsAt, TakesCalls, widest_piece};
ghost use Rattle.whole_file.specs.Pieces.{append_pieces};
ghost use Rattle.whole_file.specs.Whole.{AppendsAll, AppendsFirm};

use site_model::{Failed, PIECE, Site};

/// Appends all of the bytes, in pieces. An absent file is made.
pub fn append_all<T: Site>(
    site: &mut T,
    server: u32,
    name: &str,
    bytes: &[u8],
) -> Result<(), Failed>
    requires { server < T.servers site.old }
    ensures effect { IsTrue T.tells
        → AppendsAll (server, name.now) bytes.now (T.disk site.old) (T.disk site.new) }
    ensures done { OnOk result (IsTrue T.tells
        → (T.disk site.new).files (server, name.now)
        ≡ Some (grown ((T.disk site.old).files (server, name.now)) bytes.now)) }
    ensures calls { TakesCalls (append_pieces (length bytes.now)) widest_piece (T.counts site.old)
        (T.counts site.new) }
    ensures runs { CallsAt T.counts T.servers server site.old site.new (IsErr result) }
{
    let mut at = bytes.len().min(PIECE);
    site.append(server, name, &bytes[..at])?;
    while at < bytes.len() {
        let end = at + (bytes.len() - at).min(PIECE);
        site.append(server, name, &bytes[at..end])?;
        at = end;
    }
    Ok(())
}

/// The same, and a stop afterwards leaves all of the file.
pub fn append_firm<T: Site>(
    site: &mut T,
    server: u32,
    name: &str,
    bytes: &[u8],
) -> Result<(), Failed>
    requires { server < T.servers site.old }
    ensures effect { IsTrue T.tells
        → AppendsFirm (server, name.now) bytes.now (T.disk site.old) (T.disk site.new) }
    ensures done { OnOk result (IsTrue T.tells
        → (T.disk site.new).files (server, name.now)
        ≡ Some (firm_file (bytes_of ((T.disk site.old).files (server, name.now)) ++ bytes.now))) }
    ensures calls { TakesCalls (append_pieces (length bytes.now) + 1) widest_piece (T.counts site.old)
        (T.counts site.new) }
    ensures runs { CallsAt T.counts T.servers server site.old site.new (IsErr result) }
{
    append_all(site, server, name, bytes)?;
    site.sync(server, name)?;
    Ok(())
}
