ghost use Rattle.std.specs.Prelude.{◌≡◌, ◌≤◌, true, false, MatchResult, refl};
ghost use Rattle.problem.specs.Setting.{between};
ghost use Rattle.refusals.specs.declared.Refusal.TheVariants.{Setting};
ghost use Rattle.misfits.specs.Meanings.{absolute};
ghost use Rattle.misfits.specs.Driven.{absolute_driven};
ghost use Rattle.misfits.specs.Laws.{absolute_lawful};

use crate::{WIDEST, clipped_at, product, within};
use problem::misfit::{DrivenMisfit, Misfit};
use refusals::Refusal;

// The size of the residual times a slope.
#[derive(Clone, Copy)]
pub struct Absolute {
    slope: u32,
    ghost sloped: { (1 ≤ slope) × (slope ≤ 1024) },
}

impl Absolute {
    // The misfit of this slope, which is 1 to 1024.
    pub fn new(slope: u32) -> Result<Absolute, Refusal>
        ensures { MatchResult result (λ m. (between 1 1024 slope ≡ true) × (m.slope ≡ slope)) (λ e. (between 1 1024 slope ≡ false) × (e ≡ Setting)) }
    {
        if !(1..=1024).contains(&slope) {
            return Err(Refusal::Setting);
        }
        Ok(Absolute { slope })
    }
}

impl Misfit for Absolute {
    const CODE: u8 = 2;

    ghost CODE = { 2 };

    ghost meaning = { λ m. absolute m.slope };

    ghost lawful = { λ m. absolute_lawful m.slope m.sloped.1 };

    ghost coded = { λ _. refl };

    fn cost(&self, residual: i64) -> i64 {
        if within(residual, WIDEST) {
            product(2 * i64::from(self.slope), residual.abs())
        } else {
            0
        }
    }

    fn end(&self) -> u32 {
        self.slope
    }

    // A ray number up to the slope has no price.
    fn conjugate(&self, _ray_number: i64) -> i64 {
        0
    }

    fn subgradient(&self, residual: i64) -> i64 {
        if within(residual, WIDEST) {
            product(residual.signum(), i64::from(self.slope))
        } else {
            0
        }
    }
}

impl DrivenMisfit for Absolute {
    ghost driven = { λ m y sigma. absolute_driven m.slope y sigma };

    fn proximal(&self, y: f64, _sigma: f64) -> f64 {
        clipped_at(self.slope, y)
    }
}
