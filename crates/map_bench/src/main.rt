//! Puts needles into an index by rising, falling and mixed ids, and tells how many it then has. With one of the words
//! `rising`, `falling` and `mixed` it puts a million of them and measures that: the processor's nanoseconds that a
//! needle takes, and the bytes of memory.
#![tactic(auto)]

use needle_map::NeedleMap;
use std::alloc::{AllocError, Global};
use std::time::{CpuClock, Duration};
use std::{env, fs, io};
use volume_forms::Entry;

// How many needles are measured.
const MANY: u64 = 1_000_000;

// How many needles are put without a word.
const FEW: u64 = 1000;

// An odd number, so that its multiples by different turns differ modulo 2^64.
const STRIDE: u64 = 0x9e37_79b9_7f4a_7c15;

// The bytes of a page of memory.
const PAGE: u64 = 4096;

// The order in which ids come.
#[derive(Clone, Copy)]
enum Order {
    Rising,
    Falling,
    Mixed,
}

impl Order {
    fn read(word: &str) -> Option<Order> {
        match word {
            "rising" => Some(Order::Rising),
            "falling" => Some(Order::Falling),
            "mixed" => Some(Order::Mixed),
            _ => None,
        }
    }

    fn id(self, turn: u64) -> u64 {
        match self {
            Order::Rising => turn,
            Order::Falling => u64::MAX - turn,
            Order::Mixed => turn.wrapping_mul(STRIDE),
        }
    }
}

fn put_all(index: &mut NeedleMap, order: Order, count: u64) -> Result<(), AllocError> {
    for turn in 0..count {
        index.put(Entry {
            id: order.id(turn),
            offset: 1,
            size: 14,
        })?;
    }
    Ok(())
}

// How many of the ids have an entry.
fn get_all(index: &NeedleMap, order: Order, count: u64) -> u64 {
    let mut found = 0u64;
    for turn in 0..count {
        if index.get(order.id(turn)).is_some() {
            found = found.saturating_add(1);
        }
    }
    found
}

fn remove_all(index: &mut NeedleMap, order: Order, count: u64) {
    for turn in 0..count {
        index.remove(order.id(turn));
    }
}

fn print_few(rt: &HostRuntime, name: &str, order: Order) -> io::Result<()> {
    let mut index = NeedleMap::new(rt.alloc());
    put_all(&mut index, order, FEW)?;
    let (len, found, walked) = (
        index.len(),
        get_all(&index, order, FEW),
        index.iter().count(),
    );
    println!(rt; "{name} {len} {found} {walked}")
}

// The bytes of memory that the process has.
fn resident(rt: &HostRuntime) -> io::Result<u64> {
    let text = fs::read_to_string(rt, "/proc/self/statm")?;
    let pages = text.as_str().split_whitespace().nth(1);
    Ok(
        pages
            .and_then(|word| word.parse::<u64>().ok())
            .unwrap_or(0)
            .saturating_mul(PAGE),
    )
}

// Nanoseconds a needle since then.
fn passed(rt: &HostRuntime, since: Duration) -> io::Result<u64> {
    let passed = rt.process_cpu_time()?.saturating_sub(since);
    Ok(u64::try_from(passed.as_nanos()).unwrap_or(u64::MAX) / MANY)
}

fn measure(rt: &HostRuntime, alloc: Global, name: &str, order: Order) -> io::Result<()> {
    let before = resident(rt)?;
    let mut index = NeedleMap::new(alloc);
    let start = rt.process_cpu_time()?;
    put_all(&mut index, order, MANY)?;
    let put = passed(rt, start)?;
    let bytes = resident(rt)?.saturating_sub(before) / MANY;
    let start = rt.process_cpu_time()?;
    let found = get_all(&index, order, MANY);
    let get = passed(rt, start)?;
    let start = rt.process_cpu_time()?;
    let walked = index.iter().count();
    let walk = passed(rt, start)?;
    let start = rt.process_cpu_time()?;
    remove_all(&mut index, order, MANY);
    let remove = passed(rt, start)?;
    println!(rt;
        "{name} {found} {walked} put {put} get {get} walk {walk} remove {remove} ns, {bytes} bytes"
    )
}

fn main(rt: HostRuntime) -> io::Result<()> {
    print_few(&rt, "rising", Order::Rising)?;
    print_few(&rt, "falling", Order::Falling)?;
    print_few(&rt, "mixed", Order::Mixed)?;
    for word in env::args(&rt)? {
        if let Some(order) = Order::read(word.as_str()) {
            measure(&rt, rt.alloc(), word.as_str(), order)?;
        }
    }
    Ok(())
}
