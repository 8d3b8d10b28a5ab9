//! The calls of a site, with the faults of an opening.
ghost use Rattle.std.specs.Prelude.{◌≡◌, ◌<◌, ◌≤◌, ◌+◌, ◌^◌, IsTrue, IfOk, IfErr, IsErrOf, take, drop};
ghost use Rattle.site_model.specs.Disk.{bytes_of, length_of, size_of};
ghost use Rattle.site_model.specs.Counts.{Calls};
ghost use Rattle.coded_volume.specs.Checking.{IsSiteFault};

use site_model::{OpenFault, Site};
use std::alloc::Global;
use whole_file::read_range;

/// The length of a file in bytes, and `None` where it is absent.
pub fn size_at<T: Site>(site: &mut T, server: u32, name: &str) -> Result<Option<u64>, OpenFault>
    requires { server < T.servers site.old }
    ensures size { IfOk result (λ size. IsTrue T.tells
        → size ≡ size_of ((T.disk site.old).files (server, name.now))) }
    ensures same { IsTrue T.tells → T.disk site.new ≡ T.disk site.old }
    ensures why { IfErr result IsSiteFault }
    ensures runs { Calls T.counts T.servers site.old site.new (λ s. IsErrOf result (OpenFault.Fault s)) }
{
    match site.size(server, name) {
        Ok(size) => Ok(size),
        Err(_) => Err(OpenFault::Fault { server }),
    }
}

/// So many bytes of a file, from `at` on, which lie in it.
pub fn piece_at<T: Site>(
    alloc: Global,
    site: &mut T,
    server: u32,
    name: &str,
    at: u64,
    count: usize,
) -> Result<Vec<u8>, OpenFault>
    requires server { server < T.servers site.old }
    requires fits { at + count < 2 ^ 64 }
    requires within { IsTrue T.tells → at + count ≤ length_of ((T.disk site.old).files (server, name.now)) }
    ensures bytes { IfOk result (λ bytes. IsTrue T.tells
        → bytes.items ≡ take count (drop at (bytes_of ((T.disk site.old).files (server, name.now))))) }
    ensures same { IsTrue T.tells → T.disk site.new ≡ T.disk site.old }
    ensures why { IfErr result IsSiteFault }
    ensures runs { Calls T.counts T.servers site.old site.new (λ s. IsErrOf result (OpenFault.Fault s)) }
{
    Ok(read_range(alloc, site, server, name, at, count)?)
}
