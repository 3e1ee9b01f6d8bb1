// The cases of a file, line by line: what is said of each, against what its lines say.
use crate::bytes::bytes;
use crate::question::Question;
use crate::survey::survey;
use std::alloc::Global;
use std::mem;

// The case that is being read.
#[derive(Drop)]
struct Case {
    // its last line that has a task
    name: String,
    said: String,
    due: String,
}

impl Case {
    fn new(heap: Global) -> Case {
        Case {
            name: String::new(heap),
            said: String::new(heap),
            due: String::new(heap),
        }
    }
}

// The cases so far.
#[derive(Drop)]
pub(crate) struct Cases<Q: Question> {
    heap: Global,
    question: Q,
    case: Case,
    pub(crate) held: usize,
    pub(crate) all: usize,
}

impl<Q: Question> Cases<Q> {
    pub(crate) fn new(heap: Global) -> Cases<Q> {
        Cases {
            heap,
            question: Q::new(heap),
            case: Case::new(heap),
            held: 0,
            all: 0,
        }
    }

    // Ends the case. Answers its name where it does not hold.
    fn end(&mut self) -> Option<String> {
        let Case { name, said, due } = mem::replace(&mut self.case, Case::new(self.heap));
        self.all = self.all.saturating_add(1);
        if said.as_str() != due.as_str() {
            return Some(name);
        }
        self.held = self.held.saturating_add(1);
        None
    }

    // Takes one more line. Answers the name of a case that ends here and does not hold.
    pub(crate) fn line(&mut self, line: &str) -> anyhow::Result<Option<String>> {
        if line == "end" {
            return Ok(self.end());
        }
        let said = &mut self.case.said;
        if let Some(hex) = line.strip_prefix("file ") {
            self.case.name = String::from_str(self.heap, line)?;
            self.question.file(bytes(self.heap, hex)?, said)?;
        } else if let Some(words) = line.strip_prefix("floor ") {
            self.case.name = String::from_str(self.heap, line)?;
            self.question.floor(survey(self.heap, words)?, said)?;
        } else if let Some(words) = line.strip_prefix(Q::WORD) {
            self.question.answer(self.heap, words, said)?;
        } else {
            self.case.due.push_str(line)?;
            self.case.due.push('\n')?;
        }
        Ok(None)
    }
}
