// The two misfits of a residual: half its square, and its size times a slope.
#![tactic(auto)]

ghost use Rattle.std.specs.Prelude.{◌≡◌, ◌≤◌, ◌*ℤ◌, nat_le, unsigned_abs};
ghost use Rattle.problem.specs.Misfits.{widest};
ghost use Rattle.misfits.specs.Driven.{clip_at};

use problem::misfit::clipped;

pub mod absolute;
pub mod square;

// The largest residual that is asked for.
const WIDEST: u32 = 4_194_304;

// Whether a number is between - end and end.
fn within(number: i64, end: u32) -> bool
    ensures { result ≡ nat_le (unsigned_abs number) end }
{
    number.unsigned_abs() <= u64::from(end)
}

// The product of two numbers that are between - WIDEST and WIDEST.
#[tactic(auto, using(crate::specs::Laws::product_steps))]
fn product(a: i64, b: i64) -> i64
    requires { (unsigned_abs a ≤ widest) × (unsigned_abs b ≤ widest) }
    ensures { result ≡ a *ℤ b }
{
    a * b
}

// x brought between - end and end.
fn clipped_at(end: u32, x: f64) -> f64
    ensures { result ≡ clip_at end x }
{
    let high = f64::from(end);
    clipped(x, -high, high)
}
