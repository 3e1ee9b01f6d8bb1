use acceptance::refusal_of;
use floors::{Floor, Survey};
use packed::File;
use reductions::{Generalise, Merge, Step};
use std::alloc::{AllocError, Global};
use std::process::Abort;
use std::test::Fail;
use tables::Table;
use tasks::{Cause, Charge, Depth, Priced, Refusal, Task, check_total};
use undoing::undo;

// How many values a variable has and its goal; each starts at 0.
type Variable = (u32, Option<u32>);

// The price of an action, the value that it requires of each variable, and the one that it sets; X where there is none.
type Action = (u16, [u16; 4], [u16; 4]);

const X: u16 = 99;

const VARIABLES: [Variable; 4] = [(2, None), (2, Some(1)), (1, None), (3, None)];

const ACTIONS: [Action; 18] = [
    // 0 and 1: back and forth on variable 0
    (3, [0, X, X, X], [1, X, X, X]),
    (3, [1, X, X, X], [0, X, X, X]),
    // 2 and 3: twins, which differ in what they require of variable 0
    (2, [0, X, X, X], [X, 1, X, X]),
    (2, [1, X, X, X], [X, 1, X, X]),
    // 4: action 0 at another price
    (9, [0, X, X, X], [1, X, X, X]),
    // 5, 6 and 7: round the values of variable 3
    (1, [X, X, X, 0], [X, X, X, 1]),
    (1, [X, X, X, 1], [X, X, X, 2]),
    (1, [X, X, X, 2], [X, X, X, 0]),
    // 8: one that changes nothing
    (1, [X, 1, X, X], [X, 1, X, X]),
    // 9 and 10: action 3 at another price, and without a precondition; 11: one that only requires
    (5, [1, X, X, X], [X, 1, X, X]),
    (2, [X, X, X, X], [X, 1, X, X]),
    (3, [0, X, X, X], [X, X, X, X]),
    // 12 and 13: twins on variable 3, which has three values
    (2, [X, X, X, 0], [X, 1, X, X]),
    (2, [X, X, X, 1], [X, 1, X, X]),
    // 14 and 15: action 3 with one more precondition, and with another effect
    (2, [1, X, X, 0], [X, 1, X, X]),
    (2, [1, X, X, X], [X, 0, X, X]),
    // 16 and 17: action 0 with one more precondition, and with one more effect
    (3, [0, X, X, 0], [1, X, X, X]),
    (3, [0, X, X, X], [1, X, X, 1]),
];

// One variable with a goal, which one action reaches, or two at lower prices.
const GOAL: [Variable; 1] = [(3, Some(2))];

const WAYS: [Action; 4] = [
    (3, [0, X, X, X], [2, X, X, X]),
    (2, [0, X, X, X], [1, X, X, X]),
    (2, [1, X, X, X], [2, X, X, X]),
    (1, [2, X, X, X], [0, X, X, X]),
];

// The numbers of merge steps that are refused, and how.
const MERGES: [(u8, u8, u8, u16, u16, Cause, usize); 14] = [
    (4, 9, 9, 99, 99, Cause::NotLive, 0),
    (0, 2, 9, 99, 99, Cause::NotLive, 1),
    (0, 0, 2, 99, 99, Cause::NotLive, 2),
    (0, 0, 1, 18, 99, Cause::NotLive, 3),
    (0, 0, 1, 0, 18, Cause::NotLive, 4),
    // one value twice, at last with an action that leads from it to itself
    (0, 0, 0, 0, 1, Cause::MergeUnfit, 0),
    (1, 1, 1, 8, 8, Cause::MergeUnfit, 0),
    // the actions swapped; one that leads on and not back; one that leads nowhere
    (0, 0, 1, 1, 0, Cause::MergeUnfit, 0),
    (3, 0, 1, 5, 6, Cause::MergeUnfit, 0),
    (0, 0, 1, 2, 1, Cause::MergeUnfit, 0),
    // one more precondition, and one more effect
    (0, 0, 1, 16, 1, Cause::MergeUnfit, 0),
    (0, 0, 1, 17, 1, Cause::MergeUnfit, 0),
    (0, 1, 0, 1, 16, Cause::MergeUnfit, 0),
    (0, 1, 0, 1, 17, Cause::MergeUnfit, 0),
];

// The numbers of generalise steps that are refused, and how.
const GENERALISES: [(u8, u16, u16, Cause, usize); 14] = [
    (4, 18, 18, Cause::NotLive, 0),
    (0, 18, 18, Cause::NotLive, 1),
    (0, 2, 18, Cause::NotLive, 2),
    // three values
    (3, 12, 13, Cause::GeneraliseUnfit, 0),
    // both set the variable, the first does, the second does
    (0, 0, 1, Cause::GeneraliseUnfit, 0),
    (0, 1, 11, Cause::GeneraliseUnfit, 0),
    (0, 11, 1, Cause::GeneraliseUnfit, 0),
    // prices that differ
    (0, 2, 9, Cause::GeneraliseUnfit, 0),
    // no precondition on the variable, first and second; the same one
    (0, 10, 3, Cause::GeneraliseUnfit, 0),
    (0, 2, 10, Cause::GeneraliseUnfit, 0),
    (0, 10, 10, Cause::GeneraliseUnfit, 0),
    (0, 2, 2, Cause::GeneraliseUnfit, 0),
    // another precondition, and another effect
    (0, 2, 14, Cause::GeneraliseUnfit, 0),
    (0, 2, 15, Cause::GeneraliseUnfit, 0),
];

// Actions, and lists that stand in for them.
const STAND_INS: [(u16, &[u16]); 4] = [
    (8, &[]),
    (11, &[0, 1]),
    // variable 3 is set, and put back to what action 16 requires
    (16, &[17, 6, 7]),
    (16, &[17, 6, 7, 5, 6, 7, 1, 0]),
];

// Actions with lists that are refused, and how.
const LISTS: [(u16, &[u16], Cause, usize); 11] = [
    (18, &[18], Cause::NotLive, 0),
    // nine, of which none may be listed
    (4, &[4, 18, 18, 18, 18, 18, 18, 18, 18], Cause::ListUnfit, 8),
    // the action itself; one that is not live; the last of eight
    (4, &[0, 1, 4, 18], Cause::ListUnfit, 2),
    (4, &[0, 18, 4], Cause::ListUnfit, 1),
    (4, &[0, 1, 0, 1, 0, 1, 0, 18], Cause::ListUnfit, 7),
    // a value that is not known, and one that is known to be another
    (4, &[16], Cause::ActionUnfit, 0),
    (4, &[1], Cause::ActionUnfit, 0),
    // an effect on a variable of which nothing is known
    (10, &[], Cause::ActionUnfit, 0),
    // another variable is set: of which nothing is required, and which is not put back
    (4, &[17], Cause::ActionUnfit, 0),
    (16, &[17], Cause::ActionUnfit, 0),
    (16, &[17, 6, 7, 5, 6, 1, 0], Cause::ActionUnfit, 0),
];

fn push_variables(bytes: &mut Vec<u8>, variables: &[Variable]) -> Result<(), AllocError> {
    for (size, goal) in variables {
        let goal = match goal {
            Some(value) => 1 << 11 | value << 5,
            None => 0,
        };
        let [_, first, second, third] = (size.wrapping_sub(1) << 18 | goal).to_be_bytes();
        bytes.extend_from_slice(&[first, second, third])?;
    }
    Ok(())
}

// How many of the variables have a value here.
fn count(facts: [u16; 4]) -> u16 {
    let mut count: u16 = 0;
    for value in facts {
        if value != X {
            count = count.saturating_add(1);
        }
    }
    count
}

fn push_facts(bytes: &mut Vec<u8>, facts: [u16; 4]) -> Result<(), AllocError> {
    for variable in 0..4 {
        let value = facts[variable as usize];
        if value != X {
            bytes.extend_from_slice(&(variable << 11 | value << 5).to_be_bytes())?;
        }
    }
    Ok(())
}

fn push_action(
    bytes: &mut Vec<u8>,
    (price, preconditions, effects): Action,
) -> Result<(), AllocError> {
    bytes.extend_from_slice(&price.to_be_bytes())?;
    let counts = count(preconditions) << 10 | count(effects) << 4;
    bytes.extend_from_slice(&counts.to_be_bytes())?;
    push_facts(bytes, preconditions)?;
    push_facts(bytes, effects)
}

// The file of these variables and actions.
fn file(heap: Global, variables: &[Variable], actions: &[Action]) -> Result<File, Fail> {
    let v = u32::try_from(variables.len())?;
    let n = u32::try_from(actions.len())?;
    let mut bytes = (1 << 28 | v << 22 | n << 12).to_be_bytes().to_vec(heap)?;
    push_variables(&mut bytes, variables)?;
    for action in actions {
        push_action(&mut bytes, *action)?;
    }
    Ok(File::open(bytes)?)
}

fn task(heap: Global) -> Result<File, Fail> {
    file(heap, &VARIABLES, &ACTIONS)
}

fn refused(cause: Cause, place: usize) -> Option<Refusal> {
    Some(Refusal { cause, place })
}

fn merge<'a>(variable: u8, from: u8, to: u8, forward: u16, back: u16) -> Step<'a> {
    Step::Merge(Merge {
        variable,
        from,
        to,
        forward,
        back,
    })
}

fn generalise<'a>(variable: u8, action: u16, twin: u16) -> Step<'a> {
    Step::Generalise(Generalise {
        variable,
        action,
        twin,
    })
}

fn retire<'a>(variable: u8) -> Step<'a> {
    Step::Variable { variable }
}

fn abstraction<'a>(variable: u8) -> Step<'a> {
    Step::Abstract { variable }
}

// Three cells by two. Cell 1 costs 9 and the others 1; the robot starts at cell 0, and there is one point.
fn pool(heap: Global, blocked: u64, point: u8) -> Result<Floor, Fail> {
    Ok(Floor::new(Survey {
        width: 3,
        height: 2,
        blocked,
        prices: [1, 9, 1, 1, 1, 1].to_vec(heap)?,
        start: 0,
        points: [point].to_vec(heap)?,
        sampling: 1,
    })?)
}

// A plan of the task after the step becomes the list that is due, which is a plan, with an inserted charge.
fn check_charge<T: Priced>(
    rt: &impl Abort,
    task: &T,
    step: &Step,
    plan: &[u16],
    due: &[u16],
    inserted: u32,
) -> Result<(), Fail> {
    let mut buffer = [7; 8];
    let undone = undo::<T, Charge>(task, step, plan, &mut buffer, &mut [7; 64])?;
    let length = undone.length;
    assert!(rt; length <= 8);
    assert_eq!(rt; &buffer[0..length], due);
    assert_eq!(rt; undone.inserted, inserted);
    check_total::<T, Charge>(task, due)?;
    Ok(())
}

// The same in depth.
fn check_depth<T: Priced>(
    rt: &impl Abort,
    task: &T,
    step: &Step,
    plan: &[u16],
    due: &[u16],
    inserted: u16,
) -> Result<(), Fail> {
    let mut buffer = [7; 8];
    let undone = undo::<T, Depth>(task, step, plan, &mut buffer, &mut [7; 64])?;
    let length = undone.length;
    assert!(rt; length <= 8);
    assert_eq!(rt; &buffer[0..length], due);
    assert_eq!(rt; undone.inserted, inserted);
    Ok(())
}

// With a buffer of so many entries the list that is due is written, if it fits, and zeros behind it.
fn check_room<T: Priced>(
    rt: &impl Abort,
    heap: Global,
    task: &T,
    step: &Step,
    list: &[u16],
    due: &[u16],
    room: usize,
) -> Result<(), Fail> {
    let (mut buffer, mut table) = (vec![in heap; 7; room]?, [7; 64]);
    let said = undo::<T, Charge>(task, step, list, &mut buffer, &mut table);
    let mut left = Vec::new(heap);
    let mut refusal = refused(Cause::BufferShort, 0);
    if due.len() <= room {
        left.extend_from_slice(due)?;
        refusal = None;
    }
    left.resize(room, 0)?;
    assert_eq!(rt; said.err(), refusal);
    assert_eq!(rt; buffer, left);
    assert_eq!(rt; table, [0; 64]);
    Ok(())
}

#[test]
fn a_merge_is_refused_at_each_place(rt: HostRuntime) -> Result<(), Fail> {
    let task = task(rt.alloc())?;
    assert_eq!(rt; refusal_of(&task, &merge(0, 0, 1, 0, 1)), None);
    assert_eq!(rt; refusal_of(&task, &merge(0, 1, 0, 1, 4)), None);
    for (variable, from, to, forward, back, cause, place) in MERGES {
        let step = merge(variable, from, to, forward, back);
        assert_eq!(rt; refusal_of(&task, &step), refused(cause, place));
    }
    Ok(())
}

#[test]
fn what_is_retired_is_not_live(rt: HostRuntime) -> Result<(), Fail> {
    // cell 1 is blocked, so the moves to it and from it are retired
    let pool = pool(rt.alloc(), 0b000010, 2)?;
    assert_eq!(rt; refusal_of(&pool, &merge(0, 0, 3, 2, 12)), None);
    for (from, to, forward, back, place) in [
        (1, 0, 7, 1, 1),
        (0, 1, 1, 7, 2),
        (0, 3, 1, 12, 3),
        (0, 3, 2, 1, 4),
    ] {
        let step = merge(0, from, to, forward, back);
        assert_eq!(rt; refusal_of(&pool, &step), refused(Cause::NotLive, place));
    }
    Ok(())
}

#[test]
fn a_generalise_is_refused_at_each_place(rt: HostRuntime) -> Result<(), Fail> {
    let task = task(rt.alloc())?;
    assert_eq!(rt; refusal_of(&task, &generalise(0, 2, 3)), None);
    assert_eq!(rt; refusal_of(&task, &generalise(0, 3, 2)), None);
    for (variable, action, twin, cause, place) in GENERALISES {
        let step = generalise(variable, action, twin);
        assert_eq!(rt; refusal_of(&task, &step), refused(cause, place));
    }
    Ok(())
}

#[test]
fn a_list_stands_in_for_an_action(rt: HostRuntime) -> Result<(), Fail> {
    let task = task(rt.alloc())?;
    for (action, list) in STAND_INS {
        assert_eq!(rt; refusal_of(&task, &Step::Action { action, list }), None);
    }
    for (action, list, cause, place) in LISTS {
        let step = Step::Action { action, list };
        assert_eq!(rt; refusal_of(&task, &step), refused(cause, place));
    }
    Ok(())
}

#[test]
fn a_list_has_at_most_8_actions(rt: HostRuntime) -> Result<(), Fail> {
    let task = task(rt.alloc())?;
    // back and forth: after an odd number of moves variable 0 is where action 4 leads
    let moves = [0, 1, 0, 1, 0, 1, 0, 1, 0];
    for length in 0..10 {
        let due = if length > 8 {
            refused(Cause::ListUnfit, 8)
        } else if length % 2 == 1 {
            None
        } else {
            refused(Cause::ActionUnfit, 0)
        };
        let list = &moves[0..length];
        assert_eq!(rt; refusal_of(&task, &Step::Action { action: 4, list }), due);
    }
    Ok(())
}

#[test]
fn a_variable_has_one_live_value_left(rt: HostRuntime) -> Result<(), Fail> {
    let task = task(rt.alloc())?;
    assert_eq!(rt; refusal_of(&task, &retire(2)), None);
    for (variable, cause) in [
        (0, Cause::VariableUnfit),
        (3, Cause::VariableUnfit),
        (4, Cause::NotLive),
        (255, Cause::NotLive),
    ] {
        assert_eq!(rt; refusal_of(&task, &retire(variable)), refused(cause, 0));
    }
    // cell 0 alone is open
    let pool = pool(rt.alloc(), 0b111110, 0)?;
    assert_eq!(rt; refusal_of(&pool, &retire(0)), None);
    Ok(())
}

#[test]
fn an_abstracted_variable_is_connected(rt: HostRuntime) -> Result<(), Fail> {
    let task = task(rt.alloc())?;
    for (variable, due) in [
        (0, None),
        // from 0 to 1 and not back
        (1, refused(Cause::AbstractUnfit, 0)),
        (2, None),
        (3, None),
        (4, refused(Cause::NotLive, 0)),
    ] {
        assert_eq!(rt; refusal_of(&task, &abstraction(variable)), due);
    }
    // all cells are open; cell 1 is blocked; cells 1 and 4 are, and cut the pool in two
    for (blocked, due) in [
        (0, None),
        (0b000010, None),
        (0b010010, refused(Cause::AbstractUnfit, 0)),
    ] {
        let pool = pool(rt.alloc(), blocked, 2)?;
        assert_eq!(rt; refusal_of(&pool, &abstraction(0)), due);
    }
    Ok(())
}

#[test]
fn a_merge_is_undone_by_its_moves(rt: HostRuntime) -> Result<(), Fail> {
    let task = task(rt.alloc())?;
    let step = merge(0, 0, 1, 0, 1);
    check_charge(&rt, &task, &step, &[3], &[0, 3], 3)?;
    check_depth(&rt, &task, &step, &[3], &[0, 3], 3)?;
    check_charge(&rt, &task, &step, &[2], &[2], 0)?;
    check_charge(&rt, &task, &step, &[3, 5, 2], &[0, 3, 5, 1, 2], 6)?;
    check_depth(&rt, &task, &step, &[3, 5, 2], &[0, 3, 5, 1, 2], 3)
}

#[test]
fn what_other_steps_leave(rt: HostRuntime) -> Result<(), Fail> {
    let task = task(rt.alloc())?;
    check_charge(&rt, &task, &generalise(0, 2, 3), &[0, 2], &[0, 3], 0)?;
    check_depth(&rt, &task, &generalise(0, 2, 3), &[0, 2], &[0, 3], 0)?;
    check_charge(&rt, &task, &generalise(0, 3, 2), &[3, 0, 3], &[2, 0, 3], 0)?;
    let variable = retire(2);
    check_charge(&rt, &task, &variable, &[0, 3], &[0, 3], 0)?;
    check_depth(&rt, &task, &variable, &[0, 3], &[0, 3], 0)?;
    let action = Step::Action {
        action: 4,
        list: &[0],
    };
    check_charge(&rt, &task, &action, &[0, 3], &[0, 3], 0)?;
    check_depth(&rt, &task, &action, &[0, 3], &[0, 3], 0)
}

#[test]
fn an_abstract_is_undone_by_detours(rt: HostRuntime) -> Result<(), Fail> {
    let pool = pool(rt.alloc(), 0, 2)?;
    let step = abstraction(0);
    check_charge(&rt, &pool, &step, &[24], &[2, 13, 17, 20, 24], 4)?;
    check_depth(&rt, &pool, &step, &[24], &[2, 13, 17, 20, 24], 1)
}

#[test]
fn the_goal_is_reached_at_the_end(rt: HostRuntime) -> Result<(), Fail> {
    let task = file(rt.alloc(), &GOAL, &WAYS)?;
    // variable 0 from its initial value 0 to its goal 2
    check_charge(&rt, &task, &merge(0, 0, 2, 0, 3), &[], &[0], 3)?;
    check_charge(&rt, &task, &merge(0, 2, 0, 3, 0), &[], &[0], 3)?;
    let step = abstraction(0);
    check_charge(&rt, &task, &step, &[], &[0], 3)?;
    check_depth(&rt, &task, &step, &[], &[1, 2], 2)
}

#[test]
fn what_fits_is_written_and_else_zeros_are(rt: HostRuntime) -> Result<(), Fail> {
    let heap = rt.alloc();
    let task = task(heap)?;
    let pool = pool(heap, 0, 2)?;
    for room in 0..8 {
        check_room(
            &rt,
            heap,
            &pool,
            &abstraction(0),
            &[24],
            &[2, 13, 17, 20, 24],
            room,
        )?;
        // no plan: there is no action 99
        check_room(
            &rt,
            heap,
            &task,
            &merge(0, 0, 1, 0, 1),
            &[99, 3, 2],
            &[99, 0, 3, 1, 2],
            room,
        )?;
        check_room(
            &rt,
            heap,
            &task,
            &generalise(0, 2, 3),
            &[0, 2],
            &[0, 3],
            room,
        )?;
        check_room(&rt, heap, &task, &retire(2), &[0, 3], &[0, 3], room)?;
    }
    Ok(())
}

#[test]
fn a_table_of_another_size_is_refused_first(rt: HostRuntime) -> Result<(), Fail> {
    let pool = pool(rt.alloc(), 0, 2)?;
    // the buffer is too short as well
    let (mut buffer, mut table) = ([7; 4], [7; 63]);
    let said = undo::<Floor, Charge>(&pool, &abstraction(0), &[24], &mut buffer, &mut table);
    assert_eq!(rt; said.err(), refused(Cause::BufferSizes, 0));
    assert_eq!(rt; buffer, [7; 4]);
    assert_eq!(rt; table, [7; 63]);
    Ok(())
}

#[test]
fn a_table_takes_steps(rt: HostRuntime) -> Result<(), Fail> {
    let file = task(rt.alloc())?;
    let mut table = Table::copy_of(&file);
    assert_eq!(rt; table.price(4), file.price(4));
    assert_eq!(rt;
        table.reduce(0, &merge(0, 0, 0, 0, 1)).err(),
        refused(Cause::MergeUnfit, 0)
    );
    assert_eq!(rt; table.initial(0), 0, "a refused step leaves it alone");
    assert_eq!(rt;
        table.reduce(128, &merge(0, 0, 1, 0, 1)).err(),
        refused(Cause::PileFull, 0)
    );
    assert_eq!(rt; table.reduce(127, &merge(0, 0, 1, 0, 1)).err(), None);
    assert_eq!(rt; table.initial(0), 1);
    assert!(rt; !table.value_live(0, 0) && !table.action_live(0) && !table.action_live(1));
    assert_eq!(rt; table.precondition(2, 0), Some(1), "0 reads 1");
    assert_eq!(rt; table.price(0), 0, "it is retired");
    assert_eq!(rt; table.reduce(1, &retire(0)).err(), None);
    assert_eq!(rt; table.precondition(2, 0), None);
    assert_eq!(rt;
        table.reduce(2, &retire(0)).err(),
        refused(Cause::NotLive, 0)
    );
    Ok(())
}
