//! Gets needles of a coded volume, or reads its data file in ranges, from the servers' folders of the current folder:
//! with the words `gets VOLUME COUNT` so many needles of ids by chance, and with `ranges VOLUME COUNT` the whole data
//! file so many times. It tells what came out, and the processor's nanoseconds for a get or megabytes a second.
//! Without words it does both on volume 7, and tells no time.
#![tactic(auto)]

mod stop;
mod store;
mod table;

use std::time::{CpuClock, Duration};
use std::{env, io};
use stop::stopped;
use store::Store;

// The volume, and how often each work is done on it, without words.
const VOLUME: u32 = 7;

const TURNS: u64 = 3;

// The nanoseconds of a microsecond.
const MICRO: u64 = 1000;

// The processor's nanoseconds since then.
fn passed(rt: &HostRuntime, since: Duration) -> io::Result<u64> {
    let passed = rt.process_cpu_time()?.saturating_sub(since);
    Ok(u64::try_from(passed.as_nanos()).unwrap_or(u64::MAX))
}

fn show(rt: &HostRuntime) -> io::Result<()> {
    let mut store = Store::open(rt, VOLUME)?;
    let got = store.get_some(TURNS)?;
    println!(rt; "gets {TURNS} found {} bytes {}", got.found, got.bytes)?;
    let bytes = store.read_all(TURNS)?;
    println!(rt; "ranges {TURNS} bytes {bytes}")
}

fn time_gets(rt: &HostRuntime, volume: u32, count: u64) -> io::Result<()> {
    let mut store = Store::open(rt, volume)?;
    let start = rt.process_cpu_time()?;
    let got = store.get_some(count)?;
    let nanos = passed(rt, start)?.checked_div(count).unwrap_or(0);
    println!(rt;
        "gets {count} found {} bytes {}, {nanos} ns a get",
        got.found, got.bytes
    )
}

fn time_ranges(rt: &HostRuntime, volume: u32, count: u64) -> io::Result<()> {
    let mut store = Store::open(rt, volume)?;
    let start = rt.process_cpu_time()?;
    let bytes = store.read_all(count)?;
    let micros = passed(rt, start)? / MICRO;
    let rate = bytes.checked_div(micros).unwrap_or(0);
    println!(rt; "ranges {count} bytes {bytes}, {rate} MB/s")
}

fn main(rt: HostRuntime) -> io::Result<()> {
    let mut words = env::args(&rt)?.skip(1);
    let Some(work) = words.next() else {
        return show(&rt);
    };
    let volume = words.next().and_then(|word| word.parse::<u32>().ok());
    let count = words.next().and_then(|word| word.parse::<u64>().ok());
    match (work.as_str(), volume, count) {
        ("gets", Some(volume), Some(count)) => time_gets(&rt, volume, count),
        ("ranges", Some(volume), Some(count)) => time_ranges(&rt, volume, count),
        _ => Err(stopped("coded_bench [gets|ranges VOLUME COUNT]")),
    }
}
