ghost use Rattle.std.specs.Prelude.{◌≡◌, ◌+◌, ◌*◌, ◌^◌, ◌<◌, ◌≤◌, length, unsigned_abs};
ghost use Rattle.std.specs.Option.{ForSome};
ghost use Rattle.problem.specs.Setting.{pixel_count};
ghost use Rattle.problem.specs.Posed.{problem_of};
ghost use Rattle.problem.specs.Bound.{with_slopes, least_product, price_of, prices, reading_term, readings_product, bound};
ghost use Rattle.judge.specs.Neighbours.{slope_at};

use crate::fitting::Fitting;
use crate::neighbours::{above, left_of};
use crate::numbers::{number_at, scaled};
use crate::projection::BackProjection;
use crate::sums::total;
use problem::misfit::Misfit;
use problem::scan::Scan;

impl<'a, S: Scan, M: Misfit> Fitting<'a, S, M> {
    // The price of a ray number. (As j in `neighbours`, a ray is asked for as an index and no type.)
    #[tactic(auto, using(algebra::proofs::Words::same_bits), unfolding(problem::specs::Bound::price_of))]
    fn price(&self, ray: usize) -> i64
        requires { ray < length self.now.proposal.ray_numbers.now }
        ensures value { result ≡ price_of (M.Misfit.meaning self.now.problem.misfit.now) self.now.proposal.ray_numbers.now ray }
        ensures size { unsigned_abs result ≤ 2 ^ 44 }
    {
        self.problem
            .misfit
            .conjugate(number_at(self.proposal.ray_numbers, ray))
    }

    // The price of all ray numbers.
    #[tactic(auto, using(crate::proofs::Adding::sum_is, crate::proofs::Adding::low_over_rays), unfolding(problem::specs::Bound::prices))]
    fn prices(&self) -> i64
        ensures value { result ≡ prices (M.Misfit.meaning self.now.problem.misfit.now) (S.Scan.meaning self.now.problem.scan.now) self.now.proposal.ray_numbers.now }
        ensures size { unsigned_abs result ≤ 2 ^ 56 }
    {
        total(self.proposal.ray_numbers.len(), |ray| self.price(ray))
    }

    // Ray number × reading.
    #[tactic(auto, using(crate::proofs::Products::readings), unfolding(problem::specs::Bound::reading_term))]
    fn reading_term(&self, ray: usize) -> i64
        requires { ray < length self.now.proposal.ray_numbers.now }
        ensures value { result ≡ reading_term (S.Scan.meaning self.now.problem.scan.now) self.now.proposal.ray_numbers.now ray }
        ensures size { unsigned_abs result ≤ 2 ^ 44 }
    {
        scaled(
            self.problem.scan.reading(ray),
            number_at(self.proposal.ray_numbers, ray),
        )
    }

    // The sum of ray number × reading.
    #[tactic(auto, using(crate::proofs::Adding::sum_is, crate::proofs::Adding::low_over_rays), unfolding(problem::specs::Bound::readings_product))]
    fn readings_product(&self) -> i64
        ensures value { result ≡ readings_product (S.Scan.meaning self.now.problem.scan.now) self.now.proposal.ray_numbers.now }
        ensures size { unsigned_abs result ≤ 2 ^ 56 }
    {
        total(
            self.proposal.ray_numbers.len(),
            |ray| self.reading_term(ray),
        )
    }

    // The slope at a place, 0 where there is none.
    fn slope(&self, place: Option<usize>) -> i64
        requires { ForSome place (λ k. k < length self.now.proposal.slopes.now) }
        ensures value { result ≡ slope_at self.now.proposal.slopes.now place }
        ensures size { unsigned_abs result ≤ 1048576 }
    {
        match place {
            Some(k) => number_at(self.proposal.slopes, k),
            None => 0,
        }
    }

    // What the slopes make of a pixel's share of the rays.
    #[tactic(auto, using(crate::proofs::Chains::left_fits, crate::proofs::Chains::above_fits, crate::proofs::Chains::adjoint_low))]
    pub(crate) fn adjoint(&self, pulled: i64, j: usize) -> i64
        requires within { j < pixel_count self.now.problem.settings.now }
        requires small { unsigned_abs pulled ≤ 2 ^ 39 }
        ensures value { result ≡ with_slopes self.now.problem.settings.now self.now.proposal.slopes.now j pulled }
        ensures size { unsigned_abs result ≤ 2 ^ 39 + 2 ^ 22 }
    {
        let right = self.slope(Some(2 * j));
        let down = self.slope(Some(2 * j + 1));
        let from_left = self.slope(left_of(self.problem.settings, j).map(|k| 2 * k));
        let from_above = self.slope(above(self.problem.settings, j).map(|k| 2 * k + 1));
        pulled - right - down + from_left + from_above
    }

    // The smaller of lowest × w and highest × w.
    #[tactic(auto, using(algebra::proofs::Words::same_bits, crate::proofs::Products::smaller_low), unfolding(problem::specs::Bound::least_product))]
    pub(crate) fn smaller_product(&self, w: i64) -> i64
        requires { unsigned_abs w ≤ 2 ^ 39 + 2 ^ 22 }
        ensures value { result ≡ least_product self.now.problem.settings.now w }
        ensures size { unsigned_abs result ≤ 1023 * (2 ^ 39 + 2 ^ 22) }
    {
        let low = scaled(u32::from(self.problem.settings.lowest), w);
        let high = scaled(u32::from(self.problem.settings.highest), w);
        low.min(high)
    }

    // Twice the dual value of the ray numbers and the slopes. Not inlined, so that the array below does not stay on the stack of
    // whoever judges, nor stand there once for each scan and misfit.
    #[inline(never)]
    #[tactic(auto, using(crate::proofs::Chains::bound_fits, crate::proofs::Chains::bound_is, crate::proofs::Chains::bound_low), unfolding(problem::specs::Bound::bound))]
    pub(crate) fn bound(&self) -> i64
        ensures value { result ≡ bound (problem_of S.Scan.meaning M.Misfit.meaning self.now.problem) self.now.proposal.ray_numbers.now self.now.proposal.slopes.now }
        ensures size { unsigned_abs result ≤ 3 * 2 ^ 60 }
    {
        let price = self.prices();
        let readings = self.readings_product();
        // a slice has at most 48 × 48 pixels; an array, so that the judge takes nothing from the heap
        let mut w = [0; 2304];
        self.back_project(&mut w);
        let projection = BackProjection {
            fitting: self,
            w: &w,
        };
        let densities = projection.density_product();
        -price - 2 * readings + 2 * densities
    }
}
