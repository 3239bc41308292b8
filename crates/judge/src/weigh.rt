ghost use Rattle.std.specs.Prelude.{◌≡◌, ◌+◌, ◌^◌, ◌<◌, is_ok, IfOk, Decides, unsigned_abs};
ghost use Rattle.problem.specs.Posed.{problem_of, proposal_of};
ghost use Rattle.problem.specs.Fitting.{Fits};
ghost use Rattle.problem.specs.Saddle.{Weighed};
ghost use Rattle.judge.specs.Judging.{judged};

use crate::fitting::Fitting;
use crate::verdict::Verdict;
use problem::misfit::Misfit;
use problem::posed::Problem;
use problem::proposal::Proposal;
use problem::scan::Scan;
use refusals::Refusal;

// Judges an image with its ray numbers and slopes: objective and bound, or the first thing that does not fit.
// It takes no memory from the heap, and one pass over the entries for each of the two numbers.
pub fn weigh<S: Scan, M: Misfit>(
    problem: &Problem<S, M>,
    proposal: &Proposal,
) -> Result<Verdict, Refusal>
    ensures value { result ≡ judged (problem_of S.Scan.meaning M.Misfit.meaning problem.now) (proposal_of proposal.now) }
    ensures accepted { Decides (is_ok result) (Fits (problem_of S.Scan.meaning M.Misfit.meaning problem.now) (proposal_of proposal.now)) }
    ensures room { IfOk result (λ v. unsigned_abs v.objective + unsigned_abs v.bound < 2 ^ 62) }
    ensures weighed { IfOk result (λ v. Weighed (problem_of S.Scan.meaning M.Misfit.meaning problem.now) (proposal_of proposal.now) v.objective v.bound) }
{
    let fitting = Fitting::check(problem, proposal)?;
    Ok(Verdict {
        objective: fitting.objective(),
        bound: fitting.bound(),
    })
}
