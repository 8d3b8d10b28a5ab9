//! The outside in memory, run.
ghost use Rattle.std.specs.Prelude.{◌<◌, ◌≤◌};
ghost use Rattle.site_mem.specs.Site.{counts_at};

use crate::{FixedClock, MemSite, MemSource, Tear};
use site_model::{Clock, Failed, Site, Source};
use std::alloc::Global;
use std::process::Abort;
use std::test::Fail;

// Each call once, at any site: a file is made, made firm, read, cut, renamed and removed.
fn call_each<T: Site>(rt: &impl Abort, alloc: Global, site: &mut T) -> Result<(), Fail> {
    let servers = site.servers();
    assert_eq!(rt; servers, 2);
    site.append(1, "a", b"abc")?;
    site.sync(1, "a")?;
    let size = site.size(1, "a")?;
    assert_eq!(rt; size, Some(3));
    let mut out = [0; 2];
    site.read(1, "a", 1, &mut out)?;
    assert_eq!(rt; out, *b"bc");
    site.cut(1, "a", 1)?;
    site.rename(1, "a", "b")?;
    let names = site.list(alloc, 1)?;
    assert_eq!(rt; names.len(), 1);
    assert_eq!(rt; names[0].as_str(), "b");
    let old = site.size(1, "a")?;
    assert_eq!(rt; old, None);
    site.remove(1, "b")?;
    let gone = site.size(1, "b")?;
    assert_eq!(rt; gone, None);
    site.say(b"done")?;
    Ok(())
}

#[test]
fn each_call_does_its_part(rt: HostRuntime) -> Result<(), Fail> {
    let mut site = MemSite::new(rt.alloc(), 2)?;
    site.add_file(0, "kept", b"xyz")?;
    call_each(&rt, rt.alloc(), &mut site)?;
    assert_eq!(rt; site.file(0, "kept"), Some(b"xyz".as_slice()));
    assert_eq!(rt; site.file(1, "b"), None);
    assert_eq!(rt; site.said(), b"done".as_slice());
    assert_eq!(rt; site.calls(), 11);
    assert_eq!(rt; site.wants(), 0);
    Ok(())
}

#[test]
fn listed_calls_fail(rt: HostRuntime) -> Result<(), Fail> {
    let mut site = MemSite::new(rt.alloc(), 1)?;
    site.fail_call(2)?;
    site.fail_reads(0, 9);
    site.fail_reads(0, 4);
    site.append(0, "a", b"one")?;
    let second = site.append(0, "a", b"two");
    assert_eq!(rt; second, Err(Failed));
    assert_eq!(rt; site.file(0, "a"), Some(b"one".as_slice()));
    let mut out = [0; 0];
    site.read(0, "a", 0, &mut out)?;
    let fourth = site.read(0, "a", 0, &mut out);
    assert_eq!(rt; fourth, Err(Failed));
    site.sync(0, "a")?;
    assert_eq!(rt; site.calls(), 5);
    assert_eq!(rt; site.wants(), 0);
    Ok(())
}

#[test]
fn a_source_moves_its_bytes_and_fails_where_listed(rt: HostRuntime) -> Result<(), Fail> {
    let mut source = MemSource::new(rt.alloc(), b"hello")?;
    source.fail_read(1);
    source.fail_read(2);
    let mut out = [0; 3];
    let first = source.read(&mut out)?;
    assert_eq!(rt; first, 3);
    assert_eq!(rt; out, *b"hel");
    let second = source.read(&mut out);
    assert_eq!(rt; second, Err(Failed));
    let third = source.read(&mut out)?;
    assert_eq!(rt; third, 2);
    assert_eq!(rt; &out[..2], b"lo".as_slice());
    let last = source.read(&mut out)?;
    assert_eq!(rt; last, 0);
    Ok(())
}

#[test]
fn a_fixed_clock_stands_still(rt: HostRuntime) {
    let mut clock = FixedClock { now: 7 };
    assert_eq!(rt; clock.now(), 7);
    assert_eq!(rt; clock.now(), 7);
}

// What a stop within the call leaves of the file, and what had been said by then.
fn see_left(
    rt: &impl Abort,
    alloc: Global,
    site: &MemSite,
    call: u64,
    tear: Tear,
    name: &str,
    bytes: Option<&[u8]>,
    said: &[u8],
) -> Result<(), Fail>
    requires some { 0 < call }
    requires made { call ≤ (counts_at site.now).calls }
{
    let left = site.left(alloc, call, tear)?;
    assert_eq!(rt; left.file(0, name), bytes);
    assert_eq!(rt; left.said(), said);
    assert_eq!(rt; left.calls(), 0);
    Ok(())
}

#[test]
fn a_stop_leaves_what_the_tear_says(rt: HostRuntime) -> Result<(), Fail> {
    let alloc = rt.alloc();
    let mut site = MemSite::new(alloc, 1)?;
    site.append(0, "a", b"base")?;
    site.sync(0, "a")?;
    site.append(0, "a", b"12345")?;
    site.sync(0, "a")?;
    assert_eq!(rt; site.calls(), 4);
    see_left(&rt, alloc, &site, 1, Tear::None, "a", None, b"")?;
    see_left(&rt, alloc, &site, 1, Tear::All, "a", Some(b"base"), b"")?;
    see_left(&rt, alloc, &site, 3, Tear::None, "a", Some(b"base"), b"")?;
    see_left(&rt, alloc, &site, 3, Tear::Half, "a", Some(b"base12"), b"")?;
    see_left(
        &rt,
        alloc,
        &site,
        3,
        Tear::All,
        "a",
        Some(b"base12345"),
        b"",
    )?;
    see_left(
        &rt,
        alloc,
        &site,
        3,
        Tear::Fill(b'x'),
        "a",
        Some(b"basexxxxx"),
        b"",
    )?;
    see_left(&rt, alloc, &site, 4, Tear::Half, "a", Some(b"base12"), b"")?;
    Ok(())
}

#[test]
fn a_stop_leaves_a_rename_or_not_and_a_part_of_what_is_said(rt: HostRuntime) -> Result<(), Fail> {
    let alloc = rt.alloc();
    let mut site = MemSite::new(alloc, 1)?;
    site.add_file(0, "a", b"old")?;
    site.rename(0, "a", "b")?;
    site.say(b"abcde")?;
    site.lose(0);
    assert_eq!(rt; site.file(0, "b"), None);
    assert_eq!(rt; site.calls(), 2);
    see_left(&rt, alloc, &site, 1, Tear::None, "a", Some(b"old"), b"")?;
    see_left(&rt, alloc, &site, 1, Tear::Half, "a", None, b"")?;
    see_left(&rt, alloc, &site, 1, Tear::Half, "b", Some(b"old"), b"")?;
    see_left(&rt, alloc, &site, 2, Tear::None, "b", Some(b"old"), b"")?;
    see_left(&rt, alloc, &site, 2, Tear::Half, "b", Some(b"old"), b"ab")?;
    see_left(&rt, alloc, &site, 2, Tear::All, "b", Some(b"old"), b"abcde")?;
    Ok(())
}

#[test]
fn a_loss_between_two_calls_is_told(rt: HostRuntime) -> Result<(), Fail> {
    let mut site = MemSite::new(rt.alloc(), 1)?;
    site.add_file(0, "a", b"old")?;
    let size = site.size(0, "a")?;
    assert_eq!(rt; size, Some(3));
    assert_eq!(rt; site.loses_after(1), false);
    site.lose(0);
    assert_eq!(rt; site.loses_after(1), true);
    site.say(b"on")?;
    assert_eq!(rt; site.loses_after(1), true);
    assert_eq!(rt; site.loses_after(2), false);
    Ok(())
}
