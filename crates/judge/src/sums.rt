ghost use Rattle.std.specs.Prelude.{ℕ, ◌^◌, ◌<◌, ◌≤◌};
ghost use Rattle.judge.specs.Adding.{NoneLarger, SumOf};

// The sum of the terms 0, 1, .., count - 1.
#[tactic(auto, using(crate::proofs::Adding::sum_fits, crate::proofs::Adding::sum_added))]
pub(crate) fn total<F: Fn(usize) -> i64>(count: usize, term: F) -> i64
    requires few { count ≤ 4096 }
    requires there { (i : ℕ) → i < count → F.pre term i }
    requires fits { NoneLarger (F.post term) count (2 ^ 50) }
    ensures { SumOf (F.post term) count count result }
{
    // as `(0..count).map(term).sum()` three goals stay open: that it may be called, that it fits, and what it comes to
    let mut sum = 0;
    for i in 0..count {
        sum += term(i);
    }
    sum
}
