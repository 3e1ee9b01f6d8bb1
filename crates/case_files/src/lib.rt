// What the programs that run case files share: the reading of cases, and the writing of lists.
#![tactic(auto)]

mod bytes;
mod case;
mod lists;
mod question;
mod running;
mod survey;
#[cfg(test)]
mod tests;

pub use lists::{list_text, numbers};
pub use question::Question;
pub use running::run_file;
