// The judge: the objective and the bound of a proposal in whole numbers, or why it is refused.
#![tactic(auto)]

mod bound;
mod fitting;
pub mod limits;
mod neighbours;
mod numbers;
mod objective;
mod projection;
mod sums;
pub mod verdict;
pub mod weigh;
