ghost use Rattle.std.specs.Prelude.{◌≡◌, ◌^◌, ◌<◌, ◌≤◌, length, pos, unsigned_abs};
ghost use Rattle.std.specs.Option.{ForSome};
ghost use Rattle.problem.specs.Scans.{ray_at};
ghost use Rattle.problem.specs.Objective.{ray_term, ray_sum, residual, ray_cost, data_cost, roughness_at, total_variation, objective};
ghost use Rattle.problem.specs.Posed.{problem_of};
ghost use Rattle.judge.specs.Neighbours.{step_to};

use crate::fitting::Fitting;
use crate::neighbours::{below, right_of};
use crate::numbers::scaled;
use crate::sums::total;
use problem::misfit::Misfit;
use problem::scan::Scan;

impl<'a, S: Scan, M: Misfit> Fitting<'a, S, M> {
    // Weight × pixel at the k-th entry of a ray, 0 where there is none.
    #[tactic(auto, using(algebra::proofs::Words::same_bits, crate::proofs::Rays::entry_inside, crate::proofs::Rays::weight_low, crate::proofs::Rays::ray_term_is, crate::proofs::Rays::ray_term_past))]
    fn ray_term(&self, ray: usize, k: usize) -> i64
        ensures value { result ≡ ray_term self.now.proposal.image.now (ray_at (S.Scan.meaning self.now.problem.scan.now) ray) k }
        ensures size { unsigned_abs result ≤ 4190208 }
    {
        match self.problem.scan.entry(ray, k) {
            Some((pixel, weight)) => scaled(weight, i64::from(self.proposal.image[pixel])),
            None => 0,
        }
    }

    // The sum of weight × pixel along a ray.
    fn ray_sum(&self, ray: usize) -> i64
        ensures value { result ≡ ray_sum self.now.proposal.image.now (ray_at (S.Scan.meaning self.now.problem.scan.now) ray) }
        ensures size { unsigned_abs result ≤ 4190208 }
    {
        total(self.problem.scan.entries(ray), |k| self.ray_term(ray, k))
    }

    // The ray's sum less its reading.
    #[tactic(auto, using(algebra::proofs::Words::same_bits, crate::proofs::Rays::residual_low), unfolding(problem::specs::Objective::residual))]
    fn residual(&self, ray: usize) -> i64
        ensures value { result ≡ residual 1 self.now.proposal.image.now (ray_at (S.Scan.meaning self.now.problem.scan.now) ray) }
        ensures size { unsigned_abs result ≤ 4194304 }
    {
        self.ray_sum(ray) - i64::from(self.problem.scan.reading(ray))
    }

    // The cost of a ray.
    #[tactic(auto, using(algebra::proofs::Words::same_bits), unfolding(problem::specs::Objective::ray_cost))]
    fn cost(&self, ray: usize) -> i64
        ensures value { result ≡ ray_cost (M.Misfit.meaning self.now.problem.misfit.now) (S.Scan.meaning self.now.problem.scan.now) 1 self.now.proposal.image.now ray }
        ensures size { unsigned_abs result ≤ 2 ^ 44 }
    {
        self.problem.misfit.cost(self.residual(ray))
    }

    // The cost of all rays.
    #[tactic(auto, using(crate::proofs::Adding::sum_is, crate::proofs::Adding::low_over_rays), unfolding(problem::specs::Objective::data_cost))]
    fn data_cost(&self) -> i64
        ensures value { result ≡ data_cost (M.Misfit.meaning self.now.problem.misfit.now) (S.Scan.meaning self.now.problem.scan.now) 1 self.now.proposal.image.now }
        ensures size { unsigned_abs result ≤ 2 ^ 56 }
    {
        total(self.problem.scan.rays(), |ray| self.cost(ray))
    }

    // The size of the difference between pixel j and a neighbour, 0 where there is none.
    fn step(&self, j: usize, neighbour: Option<usize>) -> i64
        requires here { j < length self.now.proposal.image.now }
        requires there { ForSome neighbour (λ k. k < length self.now.proposal.image.now) }
        ensures value { result ≡ step_to self.now.proposal.image.now j neighbour }
        ensures size { unsigned_abs result ≤ 1023 }
    {
        match neighbour {
            Some(k) => i64::from(self.proposal.image[j].abs_diff(self.proposal.image[k])),
            None => 0,
        }
    }

    // The sizes of the two differences of a pixel.
    #[tactic(auto, using(std::proofs::lemmas::Int::ints, crate::proofs::Beside::step_right, crate::proofs::Beside::step_down), unfolding(problem::specs::Objective::roughness_at))]
    fn roughness(&self, j: usize) -> i64
        requires { j < length self.now.proposal.image.now }
        ensures value { result ≡ roughness_at self.now.problem.settings.now self.now.proposal.image.now j }
        ensures size { unsigned_abs result ≤ 2046 }
    {
        let right = self.step(j, right_of(self.problem.settings, j));
        let down = self.step(j, below(self.problem.settings, j));
        right + down
    }

    // The roughness of the image.
    #[tactic(auto, using(crate::proofs::Adding::sum_is, crate::proofs::Adding::steps_over_pixels), unfolding(problem::specs::Objective::total_variation))]
    fn total_variation(&self) -> i64
        ensures value { result ≡ total_variation self.now.problem.settings.now self.now.proposal.image.now }
        ensures size { unsigned_abs result ≤ 4713984 }
    {
        total(self.proposal.image.len(), |j| self.roughness(j))
    }

    // Twice the primal value of the image.
    #[tactic(auto, using(algebra::proofs::Integers::lin, algebra::proofs::Words::same_bits, crate::proofs::Products::strong_low), unfolding(problem::specs::Objective::objective_at))]
    pub(crate) fn objective(&self) -> i64
        ensures value { result ≡ objective (problem_of S.Scan.meaning M.Misfit.meaning self.now.problem) self.now.proposal.image.now }
        ensures size { unsigned_abs result ≤ 2 ^ 57 }
    {
        self.data_cost() + scaled(2 * self.problem.settings.strength, self.total_variation())
    }
}
