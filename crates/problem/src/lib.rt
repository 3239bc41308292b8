// The reconstruction problem of one slice: its settings, what a scan and a misfit have to answer,
// the search for the first number outside its limits, and the saddle theorem of objective and bound.
#![tactic(auto)]

pub mod duality;
pub mod limits;
pub mod misfit;
pub mod posed;
pub mod proposal;
pub mod scan;
pub mod settings;
