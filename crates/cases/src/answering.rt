// What is said of a task, and what a plan costs in either measure, as the case files write it.
use crate::describing::describe;
use case_files::{Question, numbers};
use floors::{Floor, Survey};
use packed::File;
use std::alloc::{AllocError, Global};
use std::fmt::Write;
use tasks::{Charge, Depth, Priced, Refusal, check_total};

// Describes each task, and prices the plans of the last file: `plan LIST`.
#[derive(Drop)]
pub struct Answers {
    file: Result<File, Refusal>,
}

// What is said of a task, or why it is none.
fn tell<T: Priced + Drop>(task: &Result<T, Refusal>, said: &mut String) -> Result<(), AllocError> {
    match task {
        Ok(task) => describe(said, task),
        Err(refusal) => writeln!(said, "{refusal}"),
    }
}

// The charge and the depth of a plan that works.
fn totals<T: Priced>(task: &T, plan: &[u16]) -> Result<(u32, u16), Refusal> {
    Ok((
        check_total::<T, Charge>(task, plan)?,
        check_total::<T, Depth>(task, plan)?,
    ))
}

impl Question for Answers {
    const WORD: &'static str = "plan ";

    // Before the first file a plan is asked of one without bytes.
    fn new(heap: Global) -> Answers {
        Answers {
            file: File::open(Vec::new(heap)),
        }
    }

    fn file(&mut self, bytes: Vec<u8>, said: &mut String) -> anyhow::Result<()> {
        self.file = File::open(bytes);
        Ok(tell(&self.file, said)?)
    }

    fn floor(&mut self, survey: Survey, said: &mut String) -> anyhow::Result<()> {
        Ok(tell(&Floor::new(survey), said)?)
    }

    fn answer(&mut self, heap: Global, words: &str, said: &mut String) -> anyhow::Result<()> {
        let plan = numbers::<u16>(heap, words)?;
        let totals = match &self.file {
            Ok(file) => totals(file, &plan),
            Err(refusal) => Err(*refusal),
        };
        *said = String::new(heap);
        match totals {
            Ok((charge, depth)) => writeln!(said, "charge {charge} depth {depth}")?,
            Err(refusal) => writeln!(said, "{refusal}")?,
        }
        Ok(())
    }
}
