ghost use Rattle.std.specs.Prelude.{◌≡◌, ◌*◌, ◌^◌, ◌<◌, length, pos, ◌+ℤ◌, ◌*ℤ◌, slice_set, unsigned_abs};
ghost use Rattle.problem.specs.Bound.{at};

// A number of a list, as an i64.
pub(crate) fn number_at(numbers: &[i32], i: usize) -> i64
    requires { i < length numbers.now }
    ensures { result ≡ at numbers.now i }
{
    i64::from(numbers[i])
}

// A product that is known to fit.
pub(crate) fn scaled(factor: u32, number: i64) -> i64
    requires { factor * unsigned_abs number < 2 ^ 63 }
    ensures value { result ≡ pos factor *ℤ number }
    ensures size { unsigned_abs result ≡ factor * unsigned_abs number }
{
    i64::from(factor) * number
}

// Adds to a place of a list a number that is known to fit there.
pub(crate) fn add_at(w: &mut [i64], j: usize, x: i64)
    requires within { j < length w.old }
    requires fits { unsigned_abs (at w.old j +ℤ x) < 2 ^ 63 }
    ensures { w.new ≡ slice_set w.old j (at w.old j +ℤ x) }
{
    w[j] += x;
}
