//! The renames by which the new files take the place of the old ones.
ghost use Rattle.std.specs.Prelude.{◌<◌, IsTrue, IsErr, IsSome, OnOk};
ghost use Rattle.site_model.specs.Counts.{CallsAt};
ghost use Rattle.file_names.specs.declared.Kind.TheVariants.{Cpd, Cpx};
ghost use Rattle.volume_vacuum.specs.Home.{IsNamed, temp_at, NamesFiles, AreRenamed};

use crate::home::Home;
use site_model::{Failed, Site};

/// Gives the new files their names. Once the index has the first of its two it counts, with the data file beside it.
pub(crate) fn name_files<T: Site>(site: &mut T, home: &Home) -> Result<(), Failed>
    requires server { home.now.server < T.servers site.old }
    requires named { IsNamed home.now }
    requires dat_stands { IsTrue T.tells → IsSome ((T.disk site.old).files (temp_at home.now Cpd)) }
    requires idx_stands { IsTrue T.tells → IsSome ((T.disk site.old).files (temp_at home.now Cpx)) }
    ensures effect { IsTrue T.tells
        → NamesFiles home.now.server home.now.volume (T.disk site.old) (T.disk site.new) }
    ensures done { OnOk result (IsTrue T.tells → AreRenamed home.now.server home.now.volume
        (T.disk site.old).files (T.disk site.new).files) }
    ensures runs { CallsAt T.counts T.servers home.now.server site.old site.new (IsErr result) }
{
    site.rename(home.server, &home.cpd_temp, &home.cpd)?;
    site.rename(home.server, &home.cpx_temp, &home.cpx)?;
    site.rename(home.server, &home.cpd, &home.dat)?;
    site.rename(home.server, &home.cpx, &home.idx)?;
    Ok(())
}
