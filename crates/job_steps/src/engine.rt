//! The step of a job: its work is taken from the board, run, and given back, or its end is entered.
#![tactic(auto)]

ghost use Rattle.std.specs.Prelude.{◌≡◌, true, false, IsTrue, Some, None, Err, IfErr, if◌then◌else◌};
ghost use Rattle.job_board.specs.Jobs.{IsOut, with_work, without, work_of};
ghost use Rattle.job_steps.specs.Steps.{CanStep, Went, TakesSteps, HasCauseWithin};
ghost use Rattle.plan_steps.specs.AnyPlans.{Tries};
ghost use Rattle.job_steps.specs.Stepping.{HasSlot};
ghost use Rattle.job_steps.specs.declared.engine.Work.{Work};

use crate::{Plan, StepFault, run_steps};
use job_board::Board;
use site_model::Site;
use std::collections::BTreeMap;

/// What the store has of a volume.
#[derive(Clone, Copy, Debug, PartialEq, Eq)]
pub enum Slot {
    Plain,
    Coded,
    Lost,
}

/// A plan that runs, and the slot that its end gives the volume.
#[derive(Debug, Drop)]
pub struct Work<P> {
    pub plan: P,
    pub after: Slot,
}

/// Why steps were not run.
#[derive(Clone, Copy, Debug, PartialEq, Eq)]
pub enum Halt {
    NoJob,
    Step(StepFault),
}

/// The volumes and the unfinished jobs.
#[derive(Drop)]
pub struct Engine<P> {
    pub slots: BTreeMap<u32, Slot>,
    pub board: Board<Work<P>>,
}

// Gives the volume another slot, where it has one. It takes no memory.
fn set_slot(slots: &mut BTreeMap<u32, Slot>, volume: u32, after: Slot)
    ensures { HasSlot slots.old slots.new volume after }
{
    if let Some(slot) = slots.get_mut(&volume) {
        *slot = after;
    }
}

impl<P: Plan + Drop> Engine<P> {
    ghost use Rattle.job_steps.specs.Stepping.{StepsJob, HasHaltCause};

    /// Runs so many steps of the job, or fewer where it ends, and tells whether it did.
    pub fn step<T: Site>(&mut self, site: &mut T, job: u64, steps: u32) -> Result<bool, Halt>
        requires ready { (work : Work P) → work_of self.old.board.unfinished job ≡ Some work →
            CanStep P.plans (IsTrue T.tells) (P.running work.plan)
            (P.places work.plan) (T.disk site.old).files }
        ensures refused { work_of self.old.board.unfinished job ≡ None → result ≡ Err Halt.NoJob }
        ensures steps { StepsJob job self.old self.new (λ ended was is.
            Went P.plans (IsTrue T.tells) (P.running was) steps ended (P.running is)
            (P.places was) (P.places is) (T.disk site.old) (T.disk site.new)) result }
        ensures tries { IsTrue T.tells → (work : Work P) → work_of self.old.board.unfinished job ≡ Some work →
            Tries P.plans steps (P.plans.plan (P.running work.plan)).volume (P.running work.plan)
            (P.places work.plan) (T.disk site.old) (T.disk site.new) }
        ensures counts { TakesSteps steps (T.servers site.old) (T.servers site.new)
            (T.counts site.old) (T.counts site.new) }
        ensures cause { IfErr result (HasHaltCause (λ fault.
            (work : Work P) → work_of self.old.board.unfinished job ≡ Some work →
            HasCauseWithin P.plans (IsTrue T.tells) (P.running work.plan)
            (P.places work.plan) (T.disk site.old).files (T.counts site.old) (T.counts site.new) fault)) }
    {
        let Some(volume) = self.board.volume_of(job) else {
            return Err(Halt::NoJob);
        };
        let Some(work) = self.board.take(job) else {
            return Err(Halt::NoJob);
        };
        let Work { mut plan, after } = work;
        let ran = run_steps(&mut plan, site, steps);
        let ended = ran.unwrap_or(false);
        self.enter(job, volume, Work { plan, after }, ended);
        match ran {
            Ok(ended) => Ok(ended),
            Err(fault) => Err(Halt::Step(fault)),
        }
    }

    // Finishes the job, and gives its volume the slot that the work makes; or else gives the work back.
    fn enter(&mut self, job: u64, volume: u32, work: Work<P>, ended: bool)
        requires out { IsOut self.old.board.unfinished job }
        ensures board { self.new.board ≡
            (if ended then without self.old.board job else with_work self.old.board job (Some work)) }
        ensures slot { ended ≡ true → HasSlot self.old.slots self.new.slots volume work.after }
        ensures slots { ended ≡ false → self.new.slots ≡ self.old.slots }
    {
        if ended {
            let after = work.after;
            self.board.finish(job);
            set_slot(&mut self.slots, volume, after);
        } else {
            self.board.give(job, work);
        }
    }
}
