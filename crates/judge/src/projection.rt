ghost use Rattle.std.specs.Prelude.{◌≡◌, ℕ, ◌+◌, ◌*◌, ◌^◌, ◌<◌, ◌≤◌, length, ◌+ℤ◌, unsigned_abs};
ghost use Rattle.problem.specs.Setting.{pixel_count};
ghost use Rattle.problem.specs.Scans.{ray_at};
ghost use Rattle.problem.specs.Bound.{at, ray_pull, density_term, density_product};
ghost use Rattle.judge.specs.Sizes.{Sized, Light};
ghost use Rattle.judge.specs.Projecting.{Projects};

use crate::fitting::Fitting;
use crate::numbers::{add_at, number_at, scaled};
use crate::sums::total;
use problem::misfit::Misfit;
use problem::scan::Scan;

// The ray numbers of a proposal, carried back to the pixels.
#[derive(Drop)]
pub(crate) struct BackProjection<'a, S: Scan, M: Misfit> {
    pub fitting: &'a Fitting<'a, S, M>,
    pub w: &'a [i64],
    ghost room: { pixel_count fitting.now.problem.settings.now ≤ length w.now },
    ghost projected: { Projects (S.Scan.meaning fitting.now.problem.scan.now) fitting.now.proposal.ray_numbers.now w.now },
    ghost small: { Sized (2 ^ 39) w.now },
}

impl<'a, S: Scan, M: Misfit> BackProjection<'a, S, M> {
    // The smaller product of pixel j.
    #[tactic(auto, using(algebra::proofs::Words::same_bits), unfolding(problem::specs::Bound::density_term, problem::specs::Bound::adjoint))]
    fn density_term(&self, j: usize) -> i64
        requires { j < pixel_count self.now.fitting.now.problem.settings.now }
        ensures value { result ≡ density_term self.now.fitting.now.problem.settings.now (S.Scan.meaning self.now.fitting.now.problem.scan.now) self.now.fitting.now.proposal.ray_numbers.now self.now.fitting.now.proposal.slopes.now j }
        ensures size { unsigned_abs result ≤ 1023 * (2 ^ 39 + 2 ^ 22) }
    {
        self.fitting
            .smaller_product(self.fitting.adjoint(self.w[j], j))
    }

    // The sum of the smaller products over all pixels.
    #[tactic(auto, using(crate::proofs::Adding::sum_is, crate::proofs::Adding::products_over_pixels), unfolding(problem::specs::Bound::density_product))]
    pub(crate) fn density_product(&self) -> i64
        ensures value { result ≡ density_product self.now.fitting.now.problem.settings.now (S.Scan.meaning self.now.fitting.now.problem.scan.now) self.now.fitting.now.proposal.ray_numbers.now self.now.fitting.now.proposal.slopes.now }
        ensures size { unsigned_abs result ≤ 1023 * (2 ^ 39 + 2 ^ 22) * 2304 }
    {
        let fitting = self.fitting;
        total(fitting.problem.settings.pixels(), |j| self.density_term(j))
    }
}

// The two functions that fill w ask for its length: that of an array would not be known where their loops begin.
impl<'a, S: Scan, M: Misfit> Fitting<'a, S, M> {
    // Adds weight × ray number at each pixel of one ray.
    #[tactic(auto, using(algebra::proofs::Words::same_bits, crate::proofs::Rays::entry_inside, crate::proofs::Pulls::entry_fits), unfolding(problem::specs::Bound::ray_pull))]
    fn add_ray(&self, w: &mut [i64], ray: usize)
        requires room { (S.Scan.meaning self.now.problem.scan.now).pixels ≤ length w.old }
        requires there { ray < length (S.Scan.meaning self.now.problem.scan.now).rays }
        requires light { Light (S.Scan.meaning self.now.problem.scan.now) ray w.old }
        ensures value { (j : ℕ) → j < length w.old → at w.new j ≡ at w.old j +ℤ ray_pull j (at self.now.proposal.ray_numbers.now ray) (ray_at (S.Scan.meaning self.now.problem.scan.now) ray) }
        ensures light { Light (S.Scan.meaning self.now.problem.scan.now) (ray + 1) w.new }
    {
        // a scan is asked by index: it may compute its entries
        let ray_number = number_at(self.proposal.ray_numbers, ray);
        for k in 0..self.problem.scan.entries(ray) {
            if let Some((pixel, weight)) = self.problem.scan.entry(ray, k) {
                add_at(w, pixel, scaled(weight, ray_number));
            }
        }
    }

    // Carries the ray numbers back to the pixels: one pass over all entries.
    #[tactic(auto, using(crate::proofs::Pulls::projected_more), unfolding(problem::specs::Bound::back_projection))]
    pub(crate) fn back_project(&self, w: &mut [i64])
        requires { (S.Scan.meaning self.now.problem.scan.now).pixels ≤ length w.old }
        ensures value { Projects (S.Scan.meaning self.now.problem.scan.now) self.now.proposal.ray_numbers.now w.new }
        ensures size { Sized (2 ^ 39) w.new }
    {
        w.fill(0);
        // a scan is asked by index: it may compute its rays
        for ray in 0..self.problem.scan.rays() {
            self.add_ray(w, ray);
        }
    }
}
