//! A plan that runs.
ghost use Rattle.std.specs.Prelude.{◌≡◌, ℕ, IfOk};
ghost use Rattle.stripe_layout.specs.Information.{info_text};
ghost use Rattle.plan_steps.specs.Lists.{list_of};
ghost use Rattle.plan_steps.specs.Plans.{IsPlan};
ghost use Rattle.plan_steps.specs.Stepping.{IsInBounds};
ghost use Rattle.plan_steps.specs.Laws.Due.{bounds_fact};
ghost use Rattle.plan_run.specs.Names.{AreNamed};

use crate::names::FileNames;
use plan_steps::{Plan, Progress};
use std::alloc::{AllocError, Global};
use vif_info::print_info;

/// A plan with how far it has come, and all that its steps need besides: the names of its files, and the text that it
/// writes. The room for pieces is to come.
#[derive(Drop)]
pub struct Running {
    plan: Plan,
    progress: Progress,
    names: FileNames,
    text: Vec<u8>,
    ghost named: { AreNamed plan.volume (list_of plan) names },
    ghost text_is: { text.items ≡ info_text plan.info },
    ghost bounds: { IsInBounds plan progress.files.items progress.place } by { bounds_fact plan progress.files.items progress.place },
}

impl Running {
    ghost use Rattle.plan_run.specs.Running.{Begins};

    /// The plan at its start. This takes all memory that the steps need.
    pub fn new(alloc: Global, plan: Plan) -> Result<Running, AllocError>
        requires { (servers : ℕ) × IsPlan plan servers }
        ensures { IfOk result (Begins plan) }
    {
        let progress = Progress::new(alloc, &plan)?;
        let names = FileNames::new(alloc, plan.volume, &progress.files)?;
        let text = print_info(alloc, &plan.info)?;
        Ok(Running {
            plan,
            progress,
            names,
            text,
        })
    }

    /// What it does.
    pub fn plan(&self) -> &Plan
        ensures { result.now ≡ self.now.plan }
    {
        &self.plan
    }

    /// How far it has come.
    pub fn progress(&self) -> &Progress
        ensures { result.now ≡ self.now.progress }
    {
        &self.progress
    }
}
