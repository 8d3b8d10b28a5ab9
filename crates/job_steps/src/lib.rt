//! Steps of a plan one after another, over any plan and any site.
#![tactic(auto)]

ghost use Rattle.std.specs.Prelude.{IsTrue, IfOk, IfErr};
ghost use Rattle.shard_table.specs.Table.{Row};
ghost use Rattle.plan_steps.specs.AnyPlans.{Plans, Tries};
ghost use Rattle.job_steps.specs.Steps.{CanStep, Went, TakesSteps, HasStepCause, HasCauseWithin, has_ended};

mod countdown;
mod engine;

pub use countdown::Countdown;
pub use engine::{Engine, Halt, Slot, Work};
use site_model::Site;

#[cfg(test)]
mod tests;

/// Whether steps remain.
#[derive(Clone, Copy, Debug, PartialEq, Eq)]
pub enum More {
    Running,
    Done,
}

/// Why a step failed.
#[derive(Clone, Copy, Debug, PartialEq, Eq)]
pub enum StepFault {
    Fault { server: u32 },
    Unsound { volume: u32, rule: u8 },
}

/// A plan that runs, with the places of its volume's shards.
pub trait Plan {
    ghost plans: { Plans };

    ghost running: { Self → plans.Running };

    ghost places: { Self → Row };

    /// Takes the next step, or nothing at the plan's end, and tells whether any step remains.
    fn run_step<T: Site>(&mut self, site: &mut T) -> Result<More, StepFault>
        requires ready { CanStep plans (IsTrue T.tells) (running self.old)
            (places self.old) (T.disk site.old).files }
        ensures went { IfOk result (λ more.
            Went plans (IsTrue T.tells) (running self.old) 1 (has_ended more) (running self.new)
            (places self.old) (places self.new) (T.disk site.old) (T.disk site.new)) }
        ensures tries { IsTrue T.tells →
            Tries plans 1 (plans.plan (running self.old)).volume (running self.old)
            (places self.old) (T.disk site.old) (T.disk site.new) }
        ensures counts { TakesSteps 1 (T.servers site.old) (T.servers site.new)
            (T.counts site.old) (T.counts site.new) }
        ensures cause { IfErr result
            (HasStepCause plans (IsTrue T.tells) (running self.old) (T.disk site.old).files
            (T.counts site.old) (T.counts site.new)) };
}

/// Runs so many steps, or fewer if the plan comes to its end, and tells whether it did.
pub fn run_steps<P: Plan, T: Site>(
    plan: &mut P,
    site: &mut T,
    steps: u32,
) -> Result<bool, StepFault>
    requires ready { CanStep P.plans (IsTrue T.tells) (P.running plan.old)
        (P.places plan.old) (T.disk site.old).files }
    ensures went { IfOk result (λ ended.
        Went P.plans (IsTrue T.tells) (P.running plan.old) steps ended (P.running plan.new)
        (P.places plan.old) (P.places plan.new) (T.disk site.old) (T.disk site.new)) }
    ensures tries { IsTrue T.tells →
        Tries P.plans steps (P.plans.plan (P.running plan.old)).volume (P.running plan.old)
        (P.places plan.old) (T.disk site.old) (T.disk site.new) }
    ensures counts { TakesSteps steps (T.servers site.old) (T.servers site.new)
        (T.counts site.old) (T.counts site.new) }
    ensures cause { IfErr result
        (HasCauseWithin P.plans (IsTrue T.tells) (P.running plan.old)
        (P.places plan.old) (T.disk site.old).files (T.counts site.old) (T.counts site.new)) }
{
    let mut taken = 0;
    while taken < steps {
        match plan.run_step(site) {
            Ok(More::Done) => return Ok(true),
            Ok(More::Running) => taken += 1,
            Err(fault) => return Err(fault),
        }
    }
    Ok(false)
}
