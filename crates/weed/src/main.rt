//! The program: runs the script on standard input over the folders of the current folder.
#![tactic(auto)]

ghost use Rattle.std.specs.Prelude.{◌≡◌};
ghost use Rattle.std.specs.Process.{exit_status};
ghost use Rattle.weed.specs.Endings.{ending_number};

mod ending;

use ending::Ending;
use site_dir::{DirSite, StdSource, SystemClock, Trouble};
use std::env;
use std::io::ErrorKind;
use std::process::ExitCode;
use weed_shell::{Status, weed};

#[cfg(test)]
mod tests;

// The site is made before the words are read, so its folders stand after a wrong word too.
fn main(rt: HostRuntime) -> ExitCode {
    match DirSite::open(&rt, rt.alloc()) {
        Ok(mut site) => run(&rt, &mut site),
        Err(trouble) => refuse(&rt, &trouble),
    }
}

// Runs the script. A fault of a server comes with what failed there last.
fn run(rt: &HostRuntime, site: &mut DirSite<&HostRuntime>) -> ExitCode {
    let status = run_script(rt, site);
    match status {
        Status::Fault { server } => end(rt, Ending::Ran(status), site.trouble(server)),
        _ => end(rt, Ending::Ran(status), None),
    }
}

// Ends where there is no site.
fn refuse(rt: &HostRuntime, trouble: &Trouble) -> ExitCode {
    if trouble.is_of_memory() {
        end(rt, Ending::Ran(Status::Memory), None)
    } else {
        end(rt, Ending::NoSite, Some(trouble))
    }
}

// Says how the program ends, and why. Where this can't be written, the number tells it still.
fn end(rt: &HostRuntime, ending: Ending, trouble: Option<&Trouble>) -> ExitCode
    ensures { exit_status result ≡ ending_number ending }
{
    if ending != Ending::Ran(Status::Done) {
        let _told = eprintln!(rt; "weed: {ending}");
    }
    if let Some(trouble) = trouble {
        let _told = eprintln!(rt; "weed: {trouble}");
    }
    ExitCode::from(ending.number())
}

fn run_script(rt: &HostRuntime, site: &mut DirSite<&HostRuntime>) -> Status {
    let words = match words(rt) {
        Ok(words) => words,
        Err(status) => return status,
    };
    let mut source = StdSource::new(rt);
    let mut clock = SystemClock::new(rt);
    weed(rt.alloc(), &words, &mut source, site, &mut clock)
}

// The words after the program's name. One that isn't UTF-8 is in no grammar.
fn words(rt: &HostRuntime) -> Result<Vec<String>, Status> {
    match env::args(rt) {
        Ok(args) => {
            let mut words = Vec::new(rt.alloc());
            for word in args.skip(1) {
                words.push(word).map_err(|_| Status::Memory)?;
            }
            Ok(words)
        }
        Err(e) if e.kind() == ErrorKind::OutOfMemory => Err(Status::Memory),
        Err(_) => Err(Status::Usage),
    }
}
