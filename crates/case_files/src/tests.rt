// Lists and cases, with memory enough.
use crate::bytes::{bits, bytes};
use crate::case::Cases;
use crate::survey::survey;
use crate::{Question, list_text, numbers};
use floors::{Floor, Survey};
use packed::File;
use std::alloc::Global;
use std::fmt::Write;
use std::test::Fail;
use tasks::Task;

// Asks for the size of a variable of the last floor.
#[derive(Drop)]
struct Sizes {
    floor: Option<Floor>,
}

impl Question for Sizes {
    const WORD: &'static str = "size of ";

    fn new(_heap: Global) -> Sizes {
        Sizes { floor: None }
    }

    fn file(&mut self, bytes: Vec<u8>, said: &mut String) -> anyhow::Result<()> {
        match File::open(bytes) {
            Ok(_) => writeln!(said, "a file")?,
            Err(refusal) => writeln!(said, "{refusal}")?,
        }
        Ok(())
    }

    fn floor(&mut self, survey: Survey, said: &mut String) -> anyhow::Result<()> {
        match Floor::new(survey) {
            Ok(floor) => self.floor = Some(floor),
            Err(refusal) => writeln!(said, "{refusal}")?,
        }
        Ok(())
    }

    fn answer(&mut self, heap: Global, words: &str, said: &mut String) -> anyhow::Result<()> {
        let variable = words.parse()?;
        let size = self.floor.as_ref().map_or(0, |floor| floor.size(variable));
        *said = format!(in heap; "size {size}\n")?;
        Ok(())
    }
}

// How many cases of these lines hold, and how many there are.
fn run(heap: Global, text: &str) -> anyhow::Result<(usize, usize)> {
    let mut cases = Cases::<Sizes>::new(heap);
    for line in text.lines() {
        cases.line(line)?;
    }
    Ok((cases.held, cases.all))
}

#[test]
fn lists_are_written(rt: HostRuntime) -> Result<(), Fail> {
    assert_eq!(rt;
        list_text(rt.alloc(), &[7u16, 0, 65535])?.as_str(),
        "7,0,65535"
    );
    assert_eq!(rt; list_text(rt.alloc(), &[7u16])?.as_str(), "7");
    assert_eq!(rt; list_text::<u16>(rt.alloc(), &[])?.as_str(), "-");
    Ok(())
}

#[test]
fn lists_are_read(rt: HostRuntime) -> Result<(), Fail> {
    assert_eq!(rt;
        numbers::<u16>(rt.alloc(), "7,0,65535")?.as_slice(),
        [7, 0, 65535].as_slice()
    );
    assert_eq!(rt; numbers::<u8>(rt.alloc(), "7")?.as_slice(), [7].as_slice());
    assert_eq!(rt; numbers::<u8>(rt.alloc(), "-")?.as_slice(), [].as_slice());
    assert!(rt; numbers::<u8>(rt.alloc(), "256").is_err());
    assert!(rt; numbers::<u8>(rt.alloc(), "1,,2").is_err());
    Ok(())
}

const FLOOR: &str = "floor 3 2 blocked 0 prices 1,9,1,1,1,1 start 0 points 2 sampling 1\n";

#[test]
fn cases_are_compared(rt: HostRuntime) -> Result<(), Fail> {
    let heap = rt.alloc();
    let run = |lines: &str| run(heap, &format!(in heap; "{FLOOR}{lines}")?);
    assert_eq!(rt; run("size of 0\nsize 6\nend\n")?, (1, 1));
    assert_eq!(rt; run("size of 1\nsize 6\nend\n")?, (0, 1));
    assert_eq!(rt; run("file -\nrefused 1 file 0\nend\n")?, (1, 1));
    assert_eq!(rt; run("size 6\nend\n")?, (0, 1), "nothing is asked");
    Ok(())
}

#[test]
fn cases_that_are_not_well_formed_are_read(rt: HostRuntime) -> Result<(), Fail> {
    let heap = rt.alloc();
    let run = |lines: &str| run(heap, &format!(in heap; "{FLOOR}{lines}")?);
    assert_eq!(rt;
        run("size of 0\nsize 6\nend\nsize of 0\nsize 6\nend\n")?,
        (2, 2),
        "the floor of the case before"
    );
    assert_eq!(rt;
        run("size of 0\nsize 6\nend\nsize of 1\n")?,
        (1, 1),
        "a case without its end"
    );
    assert_eq!(rt;
        run("size of 0\nsize 6\nbend\nend\n")?,
        (0, 1),
        "a line that ends in end"
    );
    assert_eq!(rt;
        run("size of 0\r\nsize 6\r\nend\r\n")?,
        (1, 1),
        "lines that end in two characters"
    );
    assert_eq!(rt;
        run("size of 0\nsize 6\nsize of 1\nend\n")?,
        (0, 1),
        "the last answer counts"
    );
    assert_eq!(rt; run("end\n")?, (1, 1), "nothing is said and nothing is due");
    assert!(rt; run("size of x\n").is_err());
    Ok(())
}

#[test]
fn digits_are_read(rt: HostRuntime) -> Result<(), Fail> {
    let heap = rt.alloc();
    assert_eq!(rt; bytes(heap, "10af")?.as_slice(), [16, 175].as_slice());
    assert_eq!(rt; bytes(heap, "10a")?.as_slice(), [16].as_slice());
    assert_eq!(rt; bytes(heap, "-")?.as_slice(), [].as_slice());
    assert_eq!(rt; bytes(heap, "")?.as_slice(), [].as_slice());
    assert!(rt; bytes(heap, "1F").is_err());
    assert!(rt; bytes(heap, "10-").is_err());
    assert_eq!(rt; bits("ff")?, 255);
    assert_eq!(rt; bits("")?, 0);
    assert_eq!(rt; bits("10000000000000001")?, 1);
    assert!(rt; bits("+1").is_err());
    Ok(())
}

#[test]
fn surveys_are_read_by_place(rt: HostRuntime) -> Result<(), Fail> {
    let heap = rt.alloc();
    let whole = survey(
        heap,
        "3 2 blocked 1 prices 1,9 start 4 points 2,3 sampling 7",
    )?;
    assert_eq!(rt;
        (
            whole.width,
            whole.height,
            whole.blocked,
            whole.start,
            whole.sampling
        ),
        (3, 2, 1, 4, 7)
    );
    assert_eq!(rt; whole.prices.as_slice(), [1, 9].as_slice());
    assert_eq!(rt; whole.points.as_slice(), [2, 3].as_slice());
    let named = survey(heap, "3 2 a 1 b 1,9 c 4 d 2,3 e 7 f")?;
    assert_eq!(rt; (named.blocked, named.start, named.sampling), (1, 4, 7));
    let short = survey(heap, "3")?;
    assert_eq!(rt; (short.width, short.height, short.sampling), (3, 0, 0));
    assert_eq!(rt; short.points.as_slice(), [].as_slice());
    assert!(rt;
        survey(
            heap,
            "3 2 blocked 1 prices 1,9 start 4 points 256 sampling 7"
        )
        .is_err()
    );
    assert!(rt; survey(heap, "").is_err());
    Ok(())
}
