ghost use Rattle.std.specs.Prelude.{◌≡◌, ◌*◌, length, Ok, Err, IfOk, IfErr};
ghost use Rattle.problem.specs.Setting.{pixel_count};
ghost use Rattle.problem.specs.Posed.{problem_of, proposal_of};
ghost use Rattle.problem.specs.Fitting.{Fits};
ghost use Rattle.judge.specs.Sizes.{Dense, Sized};
ghost use Rattle.judge.specs.Judging.{judged, verdict_of};

use crate::limits::{Densities, RayNumbers, Slopes};
use problem::limits::first_outside;
use problem::misfit::Misfit;
use problem::posed::Problem;
use problem::proposal::Proposal;
use problem::scan::Scan;
use refusals::Refusal;

// A problem with a proposal that fits it: each list has its length, and each number is within its limits.
// Beside that stand the facts that the sums rest on, one by one.
#[derive(Drop)]
pub(crate) struct Fitting<'a, S: Scan, M: Misfit> {
    pub problem: Problem<'a, S, M>,
    pub proposal: Proposal<'a>,
    ghost fits: { Fits (problem_of S.Scan.meaning M.Misfit.meaning problem) (proposal_of proposal) },
    ghost pixels: { pixel_count problem.settings.now ≡ (S.Scan.meaning problem.scan.now).pixels },
    ghost full: { length proposal.image.now ≡ pixel_count problem.settings.now },
    ghost dense: { Dense proposal.image.now },
    ghost numbered: { length proposal.ray_numbers.now ≡ length (S.Scan.meaning problem.scan.now).rays },
    ghost admitted: { Sized (M.Misfit.meaning problem.misfit.now).end proposal.ray_numbers.now },
    ghost sloped: { length proposal.slopes.now ≡ 2 * pixel_count problem.settings.now },
    ghost modest: { Sized 1048576 proposal.slopes.now },
}

impl<'a, S: Scan, M: Misfit> Fitting<'a, S, M> {
    // The problem with the proposal, or the first thing that does not fit.
    #[tactic(auto, using(crate::proofs::Accepting::fits_if_accepted))]
    pub(crate) fn check(
        problem: &Problem<'a, S, M>,
        proposal: &Proposal<'a>,
    ) -> Result<Fitting<'a, S, M>, Refusal>
        ensures problem { IfOk result (λ f. f.problem ≡ problem.now) }
        ensures proposal { IfOk result (λ f. f.proposal ≡ proposal.now) }
        ensures accepted { IfOk result (λ _. judged (problem_of S.Scan.meaning M.Misfit.meaning problem.now) (proposal_of proposal.now) ≡ Ok (verdict_of (problem_of S.Scan.meaning M.Misfit.meaning problem.now) (proposal_of proposal.now))) }
        ensures refused { IfErr result (λ e. judged (problem_of S.Scan.meaning M.Misfit.meaning problem.now) (proposal_of proposal.now) ≡ Err e) }
    {
        let pixels = problem.settings.pixels();
        if pixels != problem.scan.pixels() {
            return Err(Refusal::Pixels);
        }
        // the place is which list, counted from 0, and no enum: each call that refuses a length has other lists
        if proposal.image.len() != pixels {
            return Err(Refusal::Length(0));
        }
        if proposal.ray_numbers.len() != problem.scan.rays() {
            return Err(Refusal::Length(1));
        }
        if proposal.slopes.len() != 2 * pixels {
            return Err(Refusal::Length(2));
        }
        let settings = *problem.settings;
        first_outside(proposal.image, &Densities { settings })
            .map(Refusal::Pixel)
            .map_or(Ok(()), Err)?;
        let end = problem.misfit.end();
        first_outside(proposal.ray_numbers, &RayNumbers { end })
            .map(Refusal::RayNumber)
            .map_or(Ok(()), Err)?;
        first_outside(proposal.slopes, &Slopes { settings })
            .map(Refusal::Slope)
            .map_or(Ok(()), Err)?;
        Ok(Fitting {
            problem: *problem,
            proposal: *proposal,
        })
    }
}
