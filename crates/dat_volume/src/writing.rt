//! The writes to a volume's two files, in their order.
ghost use Rattle.std.specs.Prelude.{◌≢◌, ◌<◌, ◌+◌, IsTrue, IsErr, OnOk, length};
ghost use Rattle.site_model.specs.Counts.{CallsAt, TakesCalls, widest_piece};
ghost use Rattle.whole_file.specs.Pieces.{append_pieces};
ghost use Rattle.dat_volume.specs.NewFiles.{under_names, AreApart, NoneOf, Makes, AreMade};
ghost use Rattle.dat_volume.specs.Writing.{AppendsRecord, IsAppended};

use site_model::{Failed, Site};
use whole_file::append_firm;

/// The two files of a volume under their final names, and as they are made.
#[derive(Drop)]
pub(crate) struct NewNames {
    pub dat: String,
    pub idx: String,
    pub dat_temp: String,
    pub idx_temp: String,
}

/// Makes the data file with these bytes and an empty index. The data file has its name first, so that no index
/// stands without it.
pub(crate) fn make_files<T: Site>(
    site: &mut T,
    server: u32,
    names: &NewNames,
    super_block: &[u8],
) -> Result<(), Failed>
    requires server { server < T.servers site.old }
    requires apart { AreApart (under_names server names.now) }
    ensures effect { IsTrue T.tells → Makes (under_names server names.now) super_block.now (T.disk site.old)
        (T.disk site.new) }
    ensures done { OnOk result (IsTrue T.tells → NoneOf (under_names server names.now) (T.disk site.old).files
        → AreMade (under_names server names.now) super_block.now (T.disk site.new).files) }
    ensures runs { CallsAt T.counts T.servers server site.old site.new (IsErr result) }
{
    append_firm(site, server, &names.dat_temp, super_block)?;
    append_firm(site, server, &names.idx_temp, &[])?;
    site.rename(server, &names.dat_temp, &names.dat)?;
    site.rename(server, &names.idx_temp, &names.idx)?;
    Ok(())
}

/// Appends the record to the data file, and then its entry to the index. Each is firm before the next write.
pub(crate) fn append_record<T: Site>(
    site: &mut T,
    server: u32,
    dat: &str,
    idx: &str,
    bytes: &[u8],
    entry: &[u8],
) -> Result<(), Failed>
    requires server { server < T.servers site.old }
    requires differ { dat.now ≢ idx.now }
    ensures effect { IsTrue T.tells → AppendsRecord (server, dat.now) (server, idx.now) bytes.now entry.now
        (T.disk site.old) (T.disk site.new) }
    ensures done { OnOk result (IsTrue T.tells
        → IsAppended (server, dat.now) (server, idx.now) bytes.now entry.now (T.disk site.old).files
        (T.disk site.new).files) }
    ensures calls { TakesCalls (append_pieces (length bytes.now) + append_pieces (length entry.now) + 2)
        widest_piece (T.counts site.old) (T.counts site.new) }
    ensures runs { CallsAt T.counts T.servers server site.old site.new (IsErr result) }
{
    append_firm(site, server, dat, bytes)?;
    append_firm(site, server, idx, entry)?;
    Ok(())
}
