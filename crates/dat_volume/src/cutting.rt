//! Files cut to the lengths to keep.
ghost use Rattle.std.specs.Prelude.{◌≡◌, ◌≢◌, ◌<◌, IsTrue, IsErr, OnOk};
ghost use Rattle.site_model.specs.Disk.{cut_to};
ghost use Rattle.site_model.specs.Counts.{CallsAt};
ghost use Rattle.dat_volume.specs.Shortening.{Shortens, ShortensBoth, AreShortened};

use site_model::{Failed, Site};

/// Cuts the data file and then the index, each where it is longer than its length to keep.
pub(crate) fn cut_both<T: Site>(
    site: &mut T,
    server: u32,
    dat: &str,
    dat_length: u64,
    idx: &str,
    idx_length: u64,
) -> Result<(), Failed>
    requires server { server < T.servers site.old }
    requires apart { dat.now ≢ idx.now }
    ensures effect { IsTrue T.tells → ShortensBoth (server, dat.now) (server, idx.now) dat_length idx_length
        (T.disk site.old) (T.disk site.new) }
    ensures done { OnOk result (IsTrue T.tells
        → AreShortened (server, dat.now) (server, idx.now) dat_length idx_length (T.disk site.old).files
        (T.disk site.new).files) }
    ensures runs { CallsAt T.counts T.servers server site.old site.new (IsErr result) }
{
    cut_longer(site, server, dat, dat_length)?;
    cut_longer(site, server, idx, idx_length)?;
    Ok(())
}

// Cuts the file, where it is longer.
fn cut_longer<T: Site>(site: &mut T, server: u32, name: &str, length: u64) -> Result<(), Failed>
    requires server { server < T.servers site.old }
    ensures effect { IsTrue T.tells → Shortens (server, name.now) length (T.disk site.old) (T.disk site.new) }
    ensures done { OnOk result (IsTrue T.tells
        → (T.disk site.new).files (server, name.now)
        ≡ cut_to length ((T.disk site.old).files (server, name.now))) }
    ensures runs { CallsAt T.counts T.servers server site.old site.new (IsErr result) }
{
    // Asked for what it promises of files: none has more firm bytes than bytes, so one that isn't longer is as if cut.
    let _servers = site.servers();
    if let Some(size) = site.size(server, name)?
        && length < size
    {
        site.cut(server, name, length)?;
    }
    Ok(())
}
