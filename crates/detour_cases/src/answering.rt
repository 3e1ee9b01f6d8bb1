// What detours of a task come to, as the case file writes it.
use anyhow::Context;
use case_files::{Question, list_text};
use detours::{Path, detour};
use floors::{Floor, Survey};
use packed::File;
use std::alloc::{AllocError, Global};
use std::fmt::{Display, Write};
use std::str::FromStr;
use tasks::{Charge, Depth, Priced, Refusal};

// The value of a variable that a detour leads from, and the one that it leads to.
#[derive(Drop)]
struct Ends {
    variable: u8,
    from: u8,
    to: u8,
}

impl FromStr for Ends {
    type Err = anyhow::Error;

    // The words behind `from`: `C to R of V`.
    fn from_str(words: &str) -> anyhow::Result<Ends> {
        let (from, rest) = words.split_once(" to ").context("no value to lead to")?;
        let (to, variable) = rest.split_once(" of ").context("no variable")?;
        Ok(Ends {
            variable: variable.parse()?,
            from: from.parse()?,
            to: to.parse()?,
        })
    }
}

// The line of a detour: its total and its actions, behind the name of the measure.
fn path<S: Copy + Display>(
    heap: Global,
    measure: &str,
    found: Option<Path<S>>,
) -> Result<String, AllocError> {
    let Some(path) = found else {
        return format!(in heap; "{measure} none\n");
    };
    let total = path.total();
    let actions = list_text(heap, path.actions())?;
    format!(in heap; "{measure} {total} list {actions}\n")
}

// The detour in either measure.
fn in_both_measures<T: Priced>(heap: Global, task: &T, ends: Ends) -> Result<String, AllocError> {
    let Ends { variable, from, to } = ends;
    let charge = detour::<T, Charge>(task, variable, from, to, &mut [0; 64]);
    let depth = detour::<T, Depth>(task, variable, from, to, &mut [0; 64]);
    let charge = path(heap, "charge", charge)?;
    let depth = path(heap, "depth", depth)?;
    format!(in heap; "{charge}{depth}")
}

// What a case is about.
#[derive(Drop)]
enum Subject {
    File(File),
    Floor(Floor),
}

// Answers the detour of the last task between two values, in either measure: `from C to R of V`. Of a task that is refused
// nothing is answered.
#[derive(Drop)]
pub struct Detours {
    subject: Option<Subject>,
}

impl Detours {
    // The case is about nothing.
    fn refuse(&mut self, refusal: Refusal, said: &mut String) -> Result<(), AllocError> {
        self.subject = None;
        writeln!(said, "{refusal}")
    }
}

impl Question for Detours {
    const WORD: &'static str = "from ";

    fn new(_heap: Global) -> Detours {
        Detours { subject: None }
    }

    fn file(&mut self, bytes: Vec<u8>, said: &mut String) -> anyhow::Result<()> {
        match File::open(bytes) {
            Ok(file) => self.subject = Some(Subject::File(file)),
            Err(refusal) => self.refuse(refusal, said)?,
        }
        Ok(())
    }

    fn floor(&mut self, survey: Survey, said: &mut String) -> anyhow::Result<()> {
        match Floor::new(survey) {
            Ok(floor) => self.subject = Some(Subject::Floor(floor)),
            Err(refusal) => self.refuse(refusal, said)?,
        }
        Ok(())
    }

    fn answer(&mut self, heap: Global, words: &str, said: &mut String) -> anyhow::Result<()> {
        let ends: Ends = words.parse()?;
        match &self.subject {
            None => {}
            Some(Subject::File(file)) => *said = in_both_measures(heap, file, ends)?,
            Some(Subject::Floor(floor)) => *said = in_both_measures(heap, floor, ends)?,
        }
        Ok(())
    }
}
