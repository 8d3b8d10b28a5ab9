//! The outside of the machine, run in empty folders.
ghost use Rattle.std.specs.Prelude.{IsTrue};

use crate::{DirSite, StdSource, SystemClock};
use site_model::{Clock, Failed, Site, Source};
use std::alloc::Global;
use std::os::unix::fs::symlink;
use std::process::Abort;
use std::test::Fail;
use std::{env, fs, io, process};

// Goes to an empty folder of the test's own, and answers its path.
fn enter_folder(rt: &HostRuntime) -> io::Result<String> {
    let within = env::temp_dir(rt)?;
    let number = process::id(rt.process());
    let path = format!(in rt.alloc(); "{}/site_dir_{number}", within.as_str())?;
    fs::create_dir(rt, path.as_str())?;
    env::set_current_dir(rt, path.as_str())?;
    Ok(path)
}

fn leave_folder(rt: &HostRuntime, path: &str) -> io::Result<()> {
    env::set_current_dir(rt, "/")?;
    fs::remove_dir_all(rt, path)
}

// A file is made, made firm, read, cut and renamed, at any site that tells nothing.
fn change_a_file<T: Site>(rt: &impl Abort, alloc: Global, site: &mut T) -> Result<(), Fail>
    requires silent { IsTrue T.tells → ⊥ }
{
    let servers = site.servers();
    assert_eq!(rt; servers, 4);
    site.append(1, "a", b"abc")?;
    site.sync(1, "a")?;
    site.append(1, "a", b"de")?;
    site.sync(1, "a")?;
    let mut out = [0; 3];
    site.read(1, "a", 1, &mut out)?;
    assert_eq!(rt; out, *b"bcd");
    let past = site.read(1, "a", 3, &mut out);
    assert_eq!(rt; past, Err(Failed));
    site.cut(1, "a", 4)?;
    let longer = site.cut(1, "a", 5);
    assert_eq!(rt; longer, Err(Failed));
    site.append(1, "a", b"f")?;
    site.rename(1, "a", "b")?;
    let old = site.size(1, "a")?;
    assert_eq!(rt; old, None);
    let names = site.list(alloc, 1)?;
    assert_eq!(rt; names.len(), 1);
    assert_eq!(rt; names[0].as_str(), "b");
    Ok(())
}

// Whether no site can be made, for a reason that begins so.
fn is_refused(rt: &HostRuntime, reason: &str) -> Result<bool, Fail> {
    match DirSite::open(rt, rt.alloc()) {
        Ok(_) => Ok(false),
        Err(trouble) => Ok(format!(in rt.alloc(); "{trouble}")?.starts_with(reason)),
    }
}

// Changes a file by a site of its own, and answers whether a second site is refused meanwhile.
fn locks_the_folder(rt: &HostRuntime, abort: &impl Abort) -> Result<bool, Fail> {
    let mut site = DirSite::new(rt, rt.alloc())?;
    change_a_file(abort, rt.alloc(), &mut site)?;
    is_refused(rt, ".: another run uses this folder")
}

// Whether the trouble that the site tells of a server begins so.
fn tells(
    rt: &HostRuntime,
    site: &DirSite<&HostRuntime>,
    server: u32,
    start: &str,
) -> Result<bool, Fail> {
    match site.trouble(server) {
        Some(trouble) => Ok(format!(in rt.alloc(); "{trouble}")?.starts_with(start)),
        None => Ok(false),
    }
}

// Under this name of server 2 something stands that isn't a regular file: it has no size, nothing is written to it, and
// no file takes its place.
fn has_no_file(
    rt: &HostRuntime,
    abort: &impl Abort,
    site: &mut DirSite<&HostRuntime>,
    name: &str,
) -> Result<(), Fail> {
    let servers = site.servers();
    assert_eq!(abort; servers, 3);
    let size = site.size(2, name)?;
    assert_eq!(abort; size, None);
    let append = site.append(2, name, b"x");
    assert_eq!(abort; append, Err(Failed));
    let place = format!(in rt.alloc(); "s02/{name}: it isn't a regular file")?;
    assert!(abort; tells(rt, site, 2, place.as_str())?);
    let replaced = site.rename(2, "a", name);
    assert_eq!(abort; replaced, Err(Failed));
    Ok(())
}

#[test]
fn files_of_the_folders_are_seen_again(rt: HostRuntime) -> Result<(), Fail> {
    let path = enter_folder(&rt)?;
    assert!(rt; locks_the_folder(&rt, &rt)?);
    let mut again = DirSite::new(&rt, rt.alloc())?;
    assert_eq!(rt; again.servers(), 4);
    let size = again.size(1, "b")?;
    assert_eq!(rt; size, Some(5));
    let mut out = [0; 5];
    again.read(1, "b", 0, &mut out)?;
    assert_eq!(rt; out, *b"abcdf");
    again.remove(1, "b")?;
    let gone = again.size(1, "b")?;
    assert_eq!(rt; gone, None);
    assert!(rt; again.trouble(1).is_none());
    let absent = again.sync(1, "b");
    assert_eq!(rt; absent, Err(Failed));
    assert!(rt; tells(&rt, &again, 1, "s01/b: ")?);
    again.say(b"")?;
    leave_folder(&rt, path.as_str())?;
    Ok(())
}

#[test]
fn what_is_no_file_counts_as_nothing(rt: HostRuntime) -> Result<(), Fail> {
    let path = enter_folder(&rt)?;
    fs::create_dir(&rt, "disk")?;
    symlink(&rt, "disk", "s02")?;
    fs::create_dir(&rt, "s02/7.dat")?;
    fs::write(&rt, "elsewhere", "text")?;
    symlink(&rt, "../elsewhere", "s02/8.dat")?;
    symlink(&rt, "nowhere", "s02/9.dat")?;
    let mut site = DirSite::new(&rt, rt.alloc())?;
    assert_eq!(rt; site.servers(), 3);
    site.append(2, "a", b"x")?;
    let names = site.list(rt.alloc(), 2)?;
    assert_eq!(rt; names.len(), 1);
    for name in ["7.dat", "8.dat", "9.dat"] {
        has_no_file(&rt, &rt, &mut site, name)?;
    }
    let outside = site.append(0, "../a", b"x");
    assert_eq!(rt; outside, Err(Failed));
    assert!(rt; !fs::exists(&rt, "s02/nowhere")?);
    leave_folder(&rt, path.as_str())?;
    Ok(())
}

#[test]
fn folders_that_cant_all_be_made_are_not_made(rt: HostRuntime) -> Result<(), Fail> {
    let path = enter_folder(&rt)?;
    fs::write(&rt, "s01", "text")?;
    assert!(rt; is_refused(&rt, "s01: ")?);
    assert!(rt; !fs::exists(&rt, "s02")?);
    assert!(rt; !fs::exists(&rt, "s03")?);
    leave_folder(&rt, path.as_str())?;
    Ok(())
}

#[test]
fn standard_input_ends(rt: HostRuntime) -> Result<(), Fail> {
    let mut source = StdSource::new(&rt);
    let mut out = [0; 8];
    let n = source.read(&mut out)?;
    assert_eq!(rt; n, 0);
    Ok(())
}

#[test]
fn the_clock_is_past_the_year_2020(rt: HostRuntime) {
    let mut clock = SystemClock::new(&rt);
    assert!(rt; clock.now() > 1_577_836_800_000_000_000);
}
