// A file of cases, one after another.
use crate::case::Cases;
use crate::question::Question;
use std::fs::{self, Files};

// Runs the cases of a file, and prints the first line of each that does not hold and how many hold. No contract can say
// what a file holds.
pub fn run_file<Q: Question, R: Files + AllocGlobal + Print>(
    rt: &R,
    path: &str,
) -> anyhow::Result<()> {
    let text = fs::read_to_string(rt, path)?;
    let mut cases = Cases::<Q>::new(rt.alloc());
    for line in text.as_str().lines() {
        if let Some(failed) = cases.line(line)? {
            println!(rt; "{path}: does not hold: {failed}")?;
        }
    }
    println!(rt; "{path}: {} of {} hold", cases.held, cases.all)?;
    Ok(())
}
