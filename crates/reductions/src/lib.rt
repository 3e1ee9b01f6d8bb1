// The five steps that reduce a task: what they are, and the theorems about them.
#![tactic(auto)]

pub mod step;
pub mod theorems;

pub use step::{Generalise, Merge, Step};
