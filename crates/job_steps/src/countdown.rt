//! The smallest plan.
#![tactic(auto)]

ghost use Rattle.std.specs.Prelude.{[]};
ghost use Rattle.job_steps.specs.Countdown.{countdown};

use crate::{More, Plan, StepFault};
use site_model::Site;

/// So many steps that touch no file.
#[derive(Debug, Drop)]
pub struct Countdown {
    pub left: u32,
}

impl Plan for Countdown {
    ghost plans = { countdown };

    ghost running = { λ c. c.left };

    ghost places = { λ c. [] };

    fn run_step<T: Site>(&mut self, _site: &mut T) -> Result<More, StepFault> {
        self.left = self.left.saturating_sub(1);
        let ended = self.left == 0;
        Ok(if ended { More::Done } else { More::Running })
    }
}
