ghost use Rattle.std.specs.Prelude.{◌≡◌, IfOk};
ghost use Rattle.problem.specs.Posed.{problem_of, proposal_of};
ghost use Rattle.problem.specs.Saddle.{NoImageBetterByMore};
ghost use Rattle.judge.specs.Judging.{judged};
ghost use Rattle.examples.specs.Distances.{distance_in};

use judge::weigh::weigh;
use problem::misfit::Misfit;
use problem::posed::Problem;
use problem::proposal::Proposal;
use problem::scan::Scan;
use refusals::Refusal;

// What a caller can make of the judge's contract, and of nothing else: the distance of a proposal, and what it promises.
pub fn distance_told<S: Scan, M: Misfit>(
    problem: &Problem<S, M>,
    proposal: &Proposal,
) -> Result<i64, Refusal>
    ensures value { result ≡ distance_in (judged (problem_of S.Scan.meaning M.Misfit.meaning problem.now) (proposal_of proposal.now)) }
    ensures promised { IfOk result (λ x. NoImageBetterByMore (problem_of S.Scan.meaning M.Misfit.meaning problem.now) proposal.now.image.now x) }
{
    let verdict = weigh(problem, proposal)?;
    Ok(verdict.gap())
}
