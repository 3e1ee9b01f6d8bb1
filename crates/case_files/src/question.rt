// What the cases of a file ask, and what is said then.
use floors::Survey;
use std::alloc::Global;

// A program of case files. It is told of each line of a case in turn, and what it says goes behind what it said before.
pub trait Question: Drop {
    // How a line begins that asks.
    const WORD: &'static str;

    // What is known before the first case.
    fn new(heap: Global) -> Self;

    // A line has the bytes of a file.
    fn file(&mut self, bytes: Vec<u8>, said: &mut String) -> anyhow::Result<()>;

    // A line has the survey of a floor.
    fn floor(&mut self, survey: Survey, said: &mut String) -> anyhow::Result<()>;

    // A line asks, by the words behind `WORD`. The answer takes the place of what was said of the case.
    fn answer(&mut self, heap: Global, words: &str, said: &mut String) -> anyhow::Result<()>;
}
