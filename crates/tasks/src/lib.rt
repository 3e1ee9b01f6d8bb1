// Planning tasks: what can be asked of one, how totals are measured, and what a plan of one is.
#![tactic(auto)]

pub mod measure;
pub mod plan;
pub mod refusal;
pub mod state;
pub mod task;
#[cfg(test)]
mod tests;

pub use measure::{Charge, Depth, Measure};
pub use plan::{check, check_total, total};
pub use refusal::{Cause, Refusal};
pub use state::State;
pub use task::{Priced, Task};
