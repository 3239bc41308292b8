ghost use Rattle.std.specs.Prelude.{◌≡◌, ℕ, Float};
ghost use Rattle.problem.specs.Misfits.{MisfitMeaning, LawfulMisfit, cost_answer, conjugate_answer, subgradient_answer};
ghost use Rattle.problem.specs.Driving.{clip};

// How dear a residual is: what a ray's sum is above its reading.
pub trait Misfit {
    // Which misfit it is, for the certificate: a number and no enum, since misfits are open.
    const CODE: u8;

    ghost CODE: { ℕ };

    ghost meaning: { Self → MisfitMeaning };

    // Twice the cost of a residual. Here and below, a question outside its ends is answered 0: callers are promised that.
    fn cost(&self, residual: i64) -> i64
        ensures { result ≡ cost_answer (meaning self.now) residual };

    // The largest admitted ray number.
    fn end(&self) -> u32
        ensures { result ≡ (meaning self.now).end };

    // Twice the price of a ray number.
    fn conjugate(&self, ray_number: i64) -> i64
        ensures { result ≡ conjugate_answer (meaning self.now) ray_number };

    // The ray number that answers a residual.
    fn subgradient(&self, residual: i64) -> i64
        ensures { result ≡ subgradient_answer (meaning self.now) residual };

    ghost lawful: { (m : Self) → LawfulMisfit (meaning m) };

    ghost coded: { (m : Self) → (meaning m).code ≡ CODE };

    // The constant, as a question.
    final fn kind() -> u8
        ensures { result ≡ CODE }
    {
        Self::CODE
    }
}

// A misfit that steps can drive has one question more.
pub trait DrivenMisfit: Misfit {
    ghost driven: { Self → Float → Float → Float };

    // The next ray number from y and the step size sigma: the proximal map of the conjugate.
    fn proximal(&self, y: f64, sigma: f64) -> f64
        ensures { result ≡ driven self.now y sigma };
}

// x brought between two ends: the end that was passed, and the low end for not-a-number.
pub fn clipped(x: f64, low: f64, high: f64) -> f64
    ensures { result ≡ clip low high x }
{
    if high < x {
        high
    } else if low <= x {
        x
    } else {
        low
    }
}
