use job::Failure;
use packed::File;
use small_pools::worked_file;
use std::alloc::{AllocError, Global};
use std::test::Fail;
use tasks::{Cause, Priced, Refusal, Task};

// Where each record of the worked file begins and ends.
const RECORDS: [(usize, usize); 13] = [
    (0, 4),
    (4, 7),
    (7, 10),
    (10, 14),
    (14, 16),
    (16, 18),
    (18, 22),
    (22, 24),
    (24, 26),
    (26, 30),
    (30, 32),
    (32, 34),
    (34, 36),
];

// One byte of the worked file, what stands there instead, and the refusal that is due.
const CHANGED: [(usize, u8, Cause, usize); 34] = [
    // layout 0 and 2
    (0, 0x00, Cause::Layout, 0),
    (0, 0x20, Cause::Layout, 0),
    // 34 variables, and 515 actions
    (0, 0x18, Cause::Counts, 0),
    (1, 0xa0, Cause::Counts, 0),
    // the first and the last spare bit of each kind of record
    (2, 0x38, Cause::SpareBit, 0),
    (3, 0x01, Cause::SpareBit, 0),
    (6, 0x10, Cause::SpareBit, 4),
    (9, 0x21, Cause::SpareBit, 7),
    (13, 0x18, Cause::SpareBit, 10),
    (29, 0x11, Cause::SpareBit, 26),
    (15, 0x10, Cause::SpareBit, 14),
    (35, 0x21, Cause::SpareBit, 34),
    // an initial value of 2 of two; a goal value without a goal; a goal of 2 of two, and of 1 of one
    (5, 0x20, Cause::ValueRange, 4),
    (6, 0x20, Cause::ValueRange, 4),
    (8, 0x00, Cause::ValueRange, 7),
    (9, 0x40, Cause::ValueRange, 7),
    (7, 0x00, Cause::ValueRange, 7),
    // a fact's value 2 of two, first and last
    (15, 0x40, Cause::ValueRange, 14),
    (35, 0x40, Cause::ValueRange, 34),
    // variable 2 of two, first and last; variable 31; variable 0 behind 0, and 1 behind 1
    (14, 0x10, Cause::VariableOrder, 14),
    (34, 0x10, Cause::VariableOrder, 34),
    (14, 0xf8, Cause::VariableOrder, 14),
    (32, 0x00, Cause::VariableOrder, 32),
    (30, 0x08, Cause::VariableOrder, 32),
    // 3 preconditions for two variables, where the second fact or the third does not ascend; 63 of them
    (12, 0x0c, Cause::VariableOrder, 16),
    (28, 0x0c, Cause::VariableOrder, 34),
    (28, 0xfc, Cause::VariableOrder, 34),
    // 2 effects and 49, of which the second is not there
    (29, 0x20, Cause::CutShort, 36),
    (28, 0x0b, Cause::CutShort, 36),
    // no variable, so that an action begins where the first did; 4 actions, of which the last is not there
    (1, 0x00, Cause::SpareBit, 4),
    (2, 0x40, Cause::CutShort, 36),
    // 2 actions, 1 and none
    (2, 0x20, Cause::LeftOver, 26),
    (2, 0x10, Cause::LeftOver, 18),
    (2, 0x00, Cause::LeftOver, 10),
];

// A first record that is the whole file, and the refusal that is due.
const FIRST_RECORDS: [([u8; 4], Cause, usize); 5] = [
    // 33 variables; 513 actions; 512, of which the first is not there
    ([0x18, 0x40, 0x00, 0x00], Cause::Counts, 0),
    ([0x10, 0x20, 0x10, 0x00], Cause::Counts, 0),
    ([0x10, 0x20, 0x00, 0x00], Cause::CutShort, 4),
    // the layout comes before the counts, and they before the spare bits
    ([0x28, 0x40, 0x00, 0x01], Cause::Layout, 0),
    ([0x18, 0x40, 0x00, 0x01], Cause::Counts, 0),
];

// The length of a plan's file of zeros, which is action 0 again and again, and the refusal that is due.
const PLAN_LENGTHS: [(usize, Cause, usize); 9] = [
    (0, Cause::GoalMissed, 1),
    (1, Cause::PlanFile, 0),
    (2, Cause::GoalMissed, 1),
    (3, Cause::PlanFile, 0),
    (4, Cause::CannotRun, 1),
    (32767, Cause::PlanFile, 0),
    (32768, Cause::CannotRun, 1),
    (32769, Cause::PlanFile, 0),
    (32770, Cause::PlanFile, 0),
];

fn refused(cause: Cause, place: usize) -> Option<Refusal> {
    Some(Refusal { cause, place })
}

// What is refused of a file.
fn refusal(heap: Global, bytes: &[u8]) -> Result<Option<Refusal>, AllocError> {
    Ok(File::open(bytes.to_vec(heap)?).err())
}

// What the program refuses of its two files.
fn turned_away(heap: Global, task: &[u8], plan: &[u8]) -> Result<Option<Refusal>, AllocError> {
    match job::run(heap, task.to_vec(heap)?, plan) {
        Ok(_) => Ok(None),
        Err(Failure::Refused(refusal)) => Ok(Some(refusal)),
        Err(Failure::NoMemory) => Err(AllocError),
    }
}

// A first record, and 32 variables of 64 values whose initial value and goal are 63.
fn wide(heap: Global, first: [u8; 4]) -> Result<Vec<u8>, AllocError> {
    let mut bytes = first.to_vec(heap)?;
    for _ in 0..32 {
        bytes.extend_from_slice(&[0xff, 0xff, 0xe0])?;
    }
    Ok(bytes)
}

// So many facts, which give 63 to the variables from 0 on.
fn push_facts(bytes: &mut Vec<u8>, count: u8) -> Result<(), AllocError> {
    for variable in 0..count {
        bytes.extend_from_slice(&[variable << 3 | 0x07, 0xe0])?;
    }
    Ok(())
}

#[test]
fn a_file_of_another_length_is_refused(rt: HostRuntime) -> Result<(), Fail> {
    let heap = rt.alloc();
    let worked = worked_file();
    for (start, end) in RECORDS {
        let cause = if start == 0 {
            Cause::FileLength
        } else {
            Cause::CutShort
        };
        for length in start..end {
            assert!(rt; length < 36);
            assert_eq!(rt; refusal(heap, &worked[..length])?, refused(cause, start));
        }
    }
    let mut longer = worked.to_vec(heap)?;
    assert_eq!(rt; refusal(heap, &longer)?, None);
    longer.push(0)?;
    assert_eq!(rt; refusal(heap, &longer)?, refused(Cause::LeftOver, 36));
    Ok(())
}

#[test]
fn a_changed_byte_is_refused_at_its_record(rt: HostRuntime) -> Result<(), Fail> {
    for (index, byte, cause, place) in CHANGED {
        let mut bytes = worked_file();
        assert!(rt; index < 36);
        bytes[index] = byte;
        assert_eq!(rt; refusal(rt.alloc(), &bytes)?, refused(cause, place));
    }
    Ok(())
}

#[test]
fn counts_end_at_32_variables_and_512_actions(rt: HostRuntime) -> Result<(), Fail> {
    let heap = rt.alloc();
    assert_eq!(rt;
        refusal(heap, &[0x10, 0, 0, 0])?,
        None,
        "no variable and no action"
    );
    for (first, cause, place) in FIRST_RECORDS {
        assert_eq!(rt; refusal(heap, &first)?, refused(cause, place));
    }
    let mut bytes = [0x10, 0x20, 0, 0].to_vec(heap)?;
    bytes.resize(4 + 4 * 512, 0)?;
    let file = File::open(bytes)?;
    assert_eq!(rt;
        (
            file.variables(),
            file.actions(),
            file.action_live(511),
            file.action_live(512),
        ),
        (0, 512, true, false)
    );
    Ok(())
}

#[test]
fn a_variable_may_have_64_values(rt: HostRuntime) -> Result<(), Fail> {
    let file = File::open(wide(rt.alloc(), [0x18, 0, 0, 0])?)?;
    assert_eq!(rt;
        (
            file.variables(),
            file.size(31),
            file.initial(31),
            file.goal(31),
        ),
        (32, 64, 63, Some(63))
    );
    for value in 0..65 {
        assert!(rt; file.value_live(31, value) == (value < 64));
    }
    Ok(())
}

#[test]
fn a_file_may_have_65536_bytes(rt: HostRuntime) -> Result<(), Fail> {
    // 496 actions, of which all but the last have every fact
    let mut bytes = wide(rt.alloc(), [0x18, 0x1f, 0, 0])?;
    for _ in 0..495 {
        bytes.extend_from_slice(&[0, 1, 0x82, 0])?;
        push_facts(&mut bytes, 32)?;
        push_facts(&mut bytes, 32)?;
    }
    bytes.extend_from_slice(&[0xff, 0xff, 0x80, 0xe0])?;
    push_facts(&mut bytes, 32)?;
    push_facts(&mut bytes, 14)?;
    assert!(rt; bytes.len() == 65536);
    let file = File::open(bytes.clone()?)?;
    assert_eq!(rt;
        (
            file.price(495),
            file.precondition(495, 31),
            file.effect(495, 13),
            file.effect(495, 14),
        ),
        (65535, Some(63), Some(63), None)
    );
    bytes.push(0)?;
    assert_eq!(rt; File::open(bytes).err(), refused(Cause::FileLength, 0));
    Ok(())
}

#[test]
fn a_plan_file_ends_at_32768_bytes(rt: HostRuntime) -> Result<(), Fail> {
    let heap = rt.alloc();
    for (length, cause, place) in PLAN_LENGTHS {
        let plan = vec![in heap; 0; length]?;
        assert_eq!(rt;
            turned_away(heap, &worked_file(), &plan)?,
            refused(cause, place)
        );
    }
    Ok(())
}

#[test]
fn the_task_comes_before_the_plan(rt: HostRuntime) -> Result<(), Fail> {
    let heap = rt.alloc();
    let worked = worked_file();
    assert_eq!(rt;
        (
            turned_away(heap, &[], &[0, 0])?,
            turned_away(heap, &worked[..35], &[0])?,
            turned_away(heap, &worked, &[0, 1])?,
        ),
        (
            refused(Cause::FileLength, 0),
            refused(Cause::CutShort, 34),
            refused(Cause::CannotRun, 0),
        )
    );
    let report = job::run(heap, worked.to_vec(heap)?, &[0, 0, 0, 2])?;
    assert_eq!(rt; (report.plan, report.total), (vec![in heap; 0, 2]?, 5));
    Ok(())
}
