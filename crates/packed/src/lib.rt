// Tasks from packed files.
#![tactic(auto)]

mod checks;
pub mod file;
mod records;

pub use file::File;
