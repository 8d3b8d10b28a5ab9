//! What follows of the promise of a run: for all runs of a site's life, and for one start that can be seen whole.
#![tactic(auto)]

mod first_run;

ghost use Rattle.promise_uses.specs.Lives.{DoneLeavesNothingOpen, EndsAreStops, LawOfLifetimes, LifetimesKeepNeedles};
ghost use Rattle.promise_uses.specs.Lives.{EqualJournalsAreDecided, PlainIsDecided, RestartsSettle, RunsGoOn, WholeLinesAreReplies};
ghost use Rattle.promise_uses.specs.Starts.{NextRunFinds, ScriptIsRead};

pub use first_run::{run_from_nothing, stop_in};

#[cfg(test)]
mod tests;

/// Any number of runs over one site, each begun with what a stop or the end of the one before and a survivable loss
/// left, are one history of the needle map: each get is answered as the lines say that were answered in all runs so
/// far, and of each run perhaps one more.
pub fn lifetimes_are_one_history()
    ensures { LawOfLifetimes }
{}

/// A needle whose put was answered `OK`, and that no later line put or deleted, is found by every later get of every
/// later run, or a fault is told. One whose delete was answered `OK` does not come back.
pub fn lifetimes_keep_needles()
    ensures { LifetimesKeepNeedles }
{}

/// A life may begin with any sound files of plain volumes.
pub fn plain_volumes_are_decided()
    ensures { PlainIsDecided }
{}

/// Nor does it hurt that there are coded ones, where all holders of each have the same journal.
pub fn equal_journals_are_decided()
    ensures { EqualJournalsAreDecided }
{}

/// The end of a run is one of its stops, so a life may go on from there, whatever the status was.
pub fn ends_are_stops()
    ensures { EndsAreStops }
{}

/// After a run that is done no line may have taken effect but those that were answered.
pub fn done_leaves_nothing_open()
    ensures { DoneLeavesNothingOpen }
{}

/// When the machine has started again, nothing is pending.
pub fn restarts_settle()
    ensures { RestartsSettle }
{}

/// What was seen at a stop are the texts of the replies that the history has of the run, and a part of one more.
pub fn whole_lines_are_replies()
    ensures { WholeLinesAreReplies }
{}

/// A run may follow another over the same files, with no start of the machine between them, unless a fault or want of
/// memory ended it.
pub fn runs_go_on()
    ensures { RunsGoOn }
{}

/// Where a run created volume 7 and put a needle into it, and both were answered, the next run's get finds it after
/// each stop and survivable loss, or tells a fault that was counted.
pub fn next_run_finds()
    ensures { NextRunFinds }
{}

/// Such lines can be written.
pub fn script_is_read()
    ensures { ScriptIsRead }
{}
