//! A run of puts and deletions that is stopped within each of its calls, and within each call of the opening that follows.
ghost use Rattle.std.specs.Prelude.{◌≡◌, ◌≤◌, ◌<◌};
ghost use Rattle.site_mem.specs.Site.{counts_at};

use super::helpers::{DAT, IDX, Running, SERVER, deletion, has_index, needle};
use site_mem::{MemSite, Tear};
use std::alloc::Global;
use std::process::Abort;
use std::test::Fail;

// The calls in which a volume is made: two appends, two syncs and two renames.
const MAKING: u64 = 6;

// The calls of a put: an append and a sync for each file.
const PUTTING: u64 = 4;

// The puts of the run.
const PUTS: u64 = 4;

// What the needle has after so many puts of the run: its cookie and its data.
fn needle_after(puts: u64, id: u64) -> Option<(u32, &'static [u8])> {
    match (id, puts) {
        (1, 1 | 2) => Some((0x2a, b"123456789")),
        (1, 4) => Some((0x2c, b"again")),
        (2, 2 | 3 | 4) => Some((0x2b, b"a needle of another length")),
        _ => None,
    }
}

fn run(rt: &impl Abort, alloc: Global) -> Result<Running, Fail> {
    let mut running = Running::create(alloc)?;
    running.put(rt, alloc, &needle(alloc, 1, 0x2a, b"123456789")?)?;
    running.put(
        rt,
        alloc,
        &needle(alloc, 2, 0x2b, b"a needle of another length")?,
    )?;
    running.put(rt, alloc, &deletion(1, 0x2a))?;
    running.put(rt, alloc, &needle(alloc, 1, 0x2c, b"again")?)?;
    assert_eq!(rt; running.site.calls(), MAKING + PUTS * PUTTING);
    Ok(running)
}

// Whether the needles are those after so many puts.
fn is_after(alloc: Global, running: &mut Running, puts: u64) -> Result<bool, Fail> {
    for id in [1, 2, 3] {
        let is_same = match (running.needle(alloc, id)?, needle_after(puts, id)) {
            (Some((cookie, data)), Some(wanted)) => (cookie, data.as_slice()) == wanted,
            (None, None) => true,
            _ => false,
        };
        if !is_same {
            return Ok(false);
        }
    }
    Ok(true)
}

// A stop in the making leaves no index. The data file is absent then, or without records.
fn see_no_index(rt: &impl Abort, site: &MemSite) {
    let new = [3, 0, 0, 0, 0, 0, 0, 0];
    let is_new = match site.file(SERVER, DAT) {
        Some(dat) => dat == new.as_slice(),
        None => true,
    };
    assert!(rt; is_new);
}

// The image that a stop leaves is opened to the needles before the call or after it. So is each that a stop within that
// opening leaves, and to the same needles.
fn see_stop(
    rt: &impl Abort,
    alloc: Global,
    run: &Running,
    call: u64,
    tear: Tear,
) -> Result<(), Fail>
    requires some { 0 < call }
    requires made { call ≤ (counts_at run.now.site).calls }
{
    let image = run.site.left(alloc, call, tear)?;
    if !has_index(alloc, &image)? {
        assert!(rt; call <= MAKING);
        see_no_index(rt, &image);
        return Ok(());
    }
    let before = call.saturating_sub(MAKING + 1) / PUTTING;
    let mut opened = Running::open(rt, alloc, image)?;
    let puts = if is_after(alloc, &mut opened, before)? {
        before
    } else {
        before.saturating_add(1)
    };
    assert!(rt;
        is_after(alloc, &mut opened, puts)?,
        "at call {call}, {tear:?}"
    );
    let again = Running::open(rt, alloc, run.site.left(alloc, call, tear)?)?;
    see_stops_again(rt, alloc, &again, puts)
}

// An opening only cuts files that are firm, so that a stop leaves what a call of it made, or what it found.
fn see_stops_again(
    rt: &impl Abort,
    alloc: Global,
    opened: &Running,
    puts: u64,
) -> Result<(), Fail> {
    for call in 1..=opened.site.calls() {
        for tear in [Tear::None, Tear::All] {
            let image = opened.site.left(alloc, call, tear)?;
            let mut again = Running::open(rt, alloc, image)?;
            assert!(rt;
                is_after(alloc, &mut again, puts)?,
                "at call {call}, {tear:?}"
            );
        }
    }
    Ok(())
}

// Stops the run within each of its calls, with this tear.
fn see_stops(rt: &impl Abort, alloc: Global, tear: Tear) -> Result<(), Fail> {
    let run = run(rt, alloc)?;
    for call in 1..=run.site.calls() {
        see_stop(rt, alloc, &run, call, tear)?;
    }
    Ok(())
}

#[test]
fn a_stop_that_keeps_nothing_leaves_the_needles_before_or_after(
    rt: HostRuntime,
) -> Result<(), Fail> {
    see_stops(&rt, rt.alloc(), Tear::None)
}

#[test]
fn a_stop_that_keeps_a_half_leaves_the_needles_before_or_after(
    rt: HostRuntime,
) -> Result<(), Fail> {
    see_stops(&rt, rt.alloc(), Tear::Half)
}

#[test]
fn a_stop_that_keeps_all_leaves_the_needles_before_or_after(rt: HostRuntime) -> Result<(), Fail> {
    see_stops(&rt, rt.alloc(), Tear::All)
}

#[test]
fn a_stop_that_leaves_other_bytes_leaves_the_needles_before_or_after(
    rt: HostRuntime,
) -> Result<(), Fail> {
    see_stops(&rt, rt.alloc(), Tear::Fill(0xff))
}

// One put, stopped within the call that is counted from its first.
fn stopped(rt: &impl Abort, alloc: Global, call: u64, tear: Tear) -> Result<Running, Fail> {
    let mut running = Running::create(alloc)?;
    let made = running.site.calls();
    running.put(rt, alloc, &needle(alloc, 1, 0x2a, b"123456789")?)?;
    let call = made.saturating_add(call);
    assert!(rt; 0 < call && call <= running.site.calls());
    Running::open(rt, alloc, running.site.left(alloc, call, tear)?)
}

#[test]
fn a_put_without_its_entry_is_gone(rt: HostRuntime) -> Result<(), Fail> {
    let alloc = rt.alloc();
    let mut running = stopped(&rt, alloc, 3, Tear::None)?;
    assert_eq!(rt;
        running.site.file(SERVER, DAT).ok_or("a data file")?.len(),
        8
    );
    assert!(rt; running.needle(alloc, 1)?.is_none());
    Ok(())
}

#[test]
fn a_put_with_its_entry_is_there(rt: HostRuntime) -> Result<(), Fail> {
    let alloc = rt.alloc();
    let mut running = stopped(&rt, alloc, 4, Tear::All)?;
    assert_eq!(rt; running.site.file(SERVER, IDX).ok_or("an index")?.len(), 16);
    let (_, data) = running.needle(alloc, 1)?.ok_or("the needle")?;
    assert_eq!(rt; data.as_slice(), b"123456789".as_slice());
    Ok(())
}
