ghost use Rattle.std.specs.Prelude.{refl};
ghost use Rattle.misfits.specs.Meanings.{square};
ghost use Rattle.misfits.specs.Driven.{square_driven};
ghost use Rattle.misfits.specs.Laws.{square_lawful};

use crate::{WIDEST, clipped_at, product, within};
use problem::misfit::{DrivenMisfit, Misfit};

// Half the square of the residual.
#[derive(Clone, Copy)]
pub struct Square;

impl Misfit for Square {
    const CODE: u8 = 1;

    ghost CODE = { 1 };

    ghost meaning = { λ _. square };

    ghost lawful = { λ m. square_lawful };

    ghost coded = { λ _. refl };

    fn cost(&self, residual: i64) -> i64 {
        if within(residual, WIDEST) {
            product(residual, residual)
        } else {
            0
        }
    }

    fn end(&self) -> u32 {
        WIDEST
    }

    // Half the square is its own conjugate, and has the same end.
    fn conjugate(&self, ray_number: i64) -> i64 {
        self.cost(ray_number)
    }

    fn subgradient(&self, residual: i64) -> i64 {
        if within(residual, WIDEST) {
            residual
        } else {
            0
        }
    }
}

impl DrivenMisfit for Square {
    ghost driven = { λ _ y sigma. square_driven y sigma };

    fn proximal(&self, y: f64, sigma: f64) -> f64 {
        clipped_at(WIDEST, y / (1.0 + sigma))
    }
}
