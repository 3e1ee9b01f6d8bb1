// A task copied into plain rows, which takes steps.
#![tactic(auto)]

pub mod rows;
pub mod table;

pub use table::Table;
