// Scans of a slice: a table of rays that a scanner hands over.
#![tactic(auto)]

mod limits;
pub mod stored;
pub mod table;
