// The floor of a pool as a priced planning task: a robot goes from cell to cell and takes a sample at each point.
#![tactic(auto)]

mod cells;
pub mod floor;
pub mod survey;
#[cfg(test)]
mod tests;

pub use floor::Floor;
pub use survey::Survey;
