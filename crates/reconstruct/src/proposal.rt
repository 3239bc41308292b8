ghost use Rattle.std.specs.Prelude.{◌≡◌};

use judge::verdict::Verdict;
use judge::weigh::weigh;
use problem::misfit::Misfit;
use problem::posed::Problem;
use problem::proposal::Proposal;
use problem::scan::Scan;
use refusals::Refusal;
use std::{fmt, io};

// A proposal under a name for the person who reads.
#[derive(Clone, Copy)]
pub(crate) struct Named<'a> {
    pub name: &'a str,
    pub proposal: Proposal<'a>,
}

impl<'a> Named<'a> {
    pub(crate) fn new(
        name: &'a str,
        image: &'a [u16],
        ray_numbers: &'a [i32],
        slopes: &'a [i32],
    ) -> Named<'a>
        ensures image { result.proposal.image.now ≡ image.now }
        ensures ray_numbers { result.proposal.ray_numbers.now ≡ ray_numbers.now }
        ensures slopes { result.proposal.slopes.now ≡ slopes.now }
    {
        Named {
            name,
            proposal: Proposal {
                image,
                ray_numbers,
                slopes,
            },
        }
    }
}

// What the judge tells of a proposal, in columns.
#[derive(Drop)]
struct Told(Verdict);

impl fmt::Display for Told {
    fn fmt<W: fmt::Write>(&self, f: &mut fmt::Formatter<W>) -> fmt::Result {
        let Verdict { objective, bound } = self.0;
        let distance = self.0.gap();
        write!(
            f,
            "objective {objective:>4}, bound {bound:>4}, distance {distance:>4}"
        )
    }
}

// Judges proposals and prints one line of each.
pub(crate) fn judge<S: Scan, M: Misfit>(
    rt: &HostRuntime,
    problem: &Problem<S, M>,
    proposals: &[Named],
) -> io::Result<()> {
    for Named { name, proposal } in proposals {
        tell(rt, name, weigh(problem, proposal).map(Told))?;
    }
    Ok(())
}

// Prints one line of an answer: what it tells, or why it is refused.
pub(crate) fn tell<T: fmt::Display + Drop>(
    rt: &HostRuntime,
    name: &str,
    answer: Result<T, Refusal>,
) -> io::Result<()> {
    match answer {
        Ok(told) => println!(rt; "  {name:<38} {told}"),
        Err(refusal) => println!(rt; "  {name:<38} {refusal}"),
    }
}
