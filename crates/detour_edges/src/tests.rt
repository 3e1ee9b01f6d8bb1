use detours::{Path, detour};
use floors::{Floor, Survey};
use packed::File;
use std::alloc::{AllocError, Global};
use std::fmt::Debug;
use std::process::Abort;
use std::test::Fail;
use tasks::{Charge, Depth, Priced, check_total, total};

// An action of the one variable of a file: the value that it requires, if any, the one that it sets, and its price.
type Arrow = (Option<u8>, u8, u16);

// A fact of variable 0.
fn push_fact(bytes: &mut Vec<u8>, value: u8) -> Result<(), AllocError> {
    bytes.extend_from_slice(&(u16::from(value) << 5).to_be_bytes())
}

fn push_arrow(bytes: &mut Vec<u8>, (from, to, price): Arrow) -> Result<(), AllocError> {
    bytes.extend_from_slice(&price.to_be_bytes())?;
    match from {
        Some(from) => {
            bytes.extend_from_slice(&[0x04, 0x10])?;
            push_fact(bytes, from)?;
        }
        None => bytes.extend_from_slice(&[0x00, 0x10])?,
    }
    push_fact(bytes, to)
}

// A file of one variable, whose last value is given.
fn graph(heap: Global, last: u8, arrows: &[Arrow]) -> Result<File, Fail> {
    let count = u32::try_from(arrows.len())?;
    let mut bytes = (1 << 28 | 1 << 22 | count << 12)
        .to_be_bytes()
        .to_vec(heap)?;
    bytes.extend_from_slice(&[last << 2, 0, 0])?;
    for arrow in arrows {
        push_arrow(&mut bytes, *arrow)?;
    }
    Ok(File::open(bytes)?)
}

// 64 values: each action leads from the value of its number to the next, the last one to 0, and action 64 back from 0 to 63.
fn ring(heap: Global, onward: u16, back: u16) -> Result<File, Fail> {
    let mut arrows = Vec::new(heap);
    for value in 0..64 {
        arrows.push((Some(value), (value + 1) % 64, onward))?;
    }
    arrows.push((Some(0), 63, back))?;
    graph(heap, 63, &arrows)
}

// 63 actions of the ring, from one on.
fn round(heap: Global, first: u16) -> Result<Vec<u16>, AllocError> {
    let mut list = Vec::new(heap);
    for i in 0..63 {
        list.push(first.wrapping_add(i))?;
    }
    Ok(list)
}

// Three cells by two. Cell 1 costs 9 and the others 1; the robot starts at cell 0, and the one point is at cell 2.
fn pool(heap: Global, blocked: u64) -> Result<Survey, AllocError> {
    Ok(Survey {
        width: 3,
        height: 2,
        blocked,
        prices: [1, 9, 1, 1, 1, 1].to_vec(heap)?,
        start: 0,
        points: [2].to_vec(heap)?,
        sampling: 1,
    })
}

// The detour of variable 0, in charge.
fn charge<T: Priced>(task: &T, from: u8, to: u8) -> Option<Path<u32>> {
    detour::<T, Charge>(task, 0, from, to, &mut [0; 64])
}

// The same in depth.
fn depth<T: Priced>(task: &T, from: u8, to: u8) -> Option<Path<u16>> {
    detour::<T, Depth>(task, 0, from, to, &mut [0; 64])
}

fn check_path<S: Copy + PartialEq + Debug>(
    rt: &impl Abort,
    path: Option<Path<S>>,
    total: S,
    list: &[u16],
) -> Result<(), Fail> {
    let path = path.ok_or("there is no detour")?;
    assert_eq!(rt; path.total(), total);
    assert_eq!(rt; path.actions(), list);
    Ok(())
}

#[test]
fn a_value_leads_to_itself_by_no_action(rt: HostRuntime) -> Result<(), Fail> {
    let heap = rt.alloc();
    // the one value, to which two actions lead back for nothing
    let file = graph(heap, 0, &[(Some(0), 0, 0), (None, 0, 0)])?;
    check_path(&rt, charge(&file, 0, 0), 0, &[])?;
    check_path(&rt, depth(&file, 0, 0), 0, &[])?;
    check_path(&rt, charge(&ring(heap, 1, 1)?, 63, 63), 0, &[])
}

#[test]
fn an_action_without_a_precondition_leads_from_every_value(rt: HostRuntime) -> Result<(), Fail> {
    let arrows = [
        (None, 2, 5),
        (Some(0), 1, 6),
        (Some(2), 0, 0),
        (Some(0), 3, 0),
    ];
    let file = graph(rt.alloc(), 4, &arrows)?;
    check_path(&rt, charge(&file, 4, 2), 5, &[0])?;
    // prices of 0
    check_path(&rt, charge(&file, 1, 3), 5, &[0, 2, 3])?;
    check_path(&rt, charge(&file, 4, 1), 11, &[0, 2, 1])?;
    check_path(&rt, depth(&file, 4, 1), 6, &[0, 2, 1])?;
    assert!(rt; charge(&file, 0, 4).is_none(), "nothing sets 4");
    Ok(())
}

#[test]
fn a_ring_is_gone_round_the_cheaper_way(rt: HostRuntime) -> Result<(), Fail> {
    let heap = rt.alloc();
    let list = round(heap, 0)?;
    check_path(&rt, charge(&ring(heap, 1, 64)?, 0, 63), 63, &list)?;
    check_path(&rt, charge(&ring(heap, 1, 62)?, 0, 63), 62, &[64])?;
    // what was first stays
    check_path(&rt, charge(&ring(heap, 1, 63)?, 0, 63), 63, &[64])?;
    check_path(&rt, depth(&ring(heap, 1, 2)?, 0, 63), 1, &list)
}

#[test]
fn the_greatest_totals(rt: HostRuntime) -> Result<(), Fail> {
    // 63 times 65,535 is the greatest charge of a detour, so none stops at 4,294,967,295
    let file = ring(rt.alloc(), 65535, 65535)?;
    let list = round(rt.alloc(), 1)?;
    check_path(&rt, charge(&file, 1, 0), 4128705, &list)?;
    check_path(&rt, depth(&file, 1, 0), 65535, &list)
}

#[test]
fn the_lower_number_stands_at_a_tie(rt: HostRuntime) -> Result<(), Fail> {
    // by value 2, or by value 1, where either of two actions will do
    let arrows = [
        (Some(0), 2, 1),
        (Some(0), 1, 1),
        (Some(0), 1, 1),
        (Some(2), 3, 1),
        (Some(1), 3, 1),
        (Some(1), 3, 1),
    ];
    let file = graph(rt.alloc(), 3, &arrows)?;
    check_path(&rt, charge(&file, 0, 3), 2, &[1, 4])?;
    check_path(&rt, depth(&file, 0, 3), 1, &[1, 4])
}

#[test]
fn the_way_round_costs_less_than_the_fewest_moves(rt: HostRuntime) -> Result<(), Fail> {
    let floor = Floor::new(pool(rt.alloc(), 0)?)?;
    check_path(&rt, charge(&floor, 0, 2), 4, &[2, 13, 17, 20])?;
    check_path(&rt, depth(&floor, 0, 2), 1, &[2, 13, 17, 20])?;
    assert_eq!(rt; total::<Floor, Charge>(&floor, &[1, 5]), 10);
    assert_eq!(rt; check_total::<Floor, Charge>(&floor, &[1, 5, 24])?, 11);
    assert_eq!(rt;
        check_total::<Floor, Charge>(&floor, &[2, 13, 17, 20, 24])?,
        5
    );
    Ok(())
}

#[test]
fn a_table_has_64_totals_and_is_cleared(rt: HostRuntime) -> Result<(), Fail> {
    let floor = Floor::new(pool(rt.alloc(), 0)?)?;
    let mut short = [7; 63];
    assert!(rt; detour::<Floor, Charge>(&floor, 0, 0, 2, &mut short).is_none());
    assert_eq!(rt; short, [7; 63], "it is left alone");
    let mut long = [7; 65];
    assert!(rt; detour::<Floor, Charge>(&floor, 0, 0, 2, &mut long).is_none());
    assert_eq!(rt; long, [7; 65], "it is left alone");
    let mut table = [7; 64];
    assert!(rt; detour::<Floor, Charge>(&floor, 0, 0, 2, &mut table).is_some());
    assert_eq!(rt; table, [0; 64]);
    table = [u32::MAX; 64];
    assert!(rt; detour::<Floor, Charge>(&floor, 0, 0, 6, &mut table).is_none());
    assert_eq!(rt; table, [0; 64], "there is no cell 6");
    Ok(())
}

#[test]
fn what_is_not_live_or_cut_off_has_no_detour(rt: HostRuntime) -> Result<(), Fail> {
    // cells 1 and 4 are blocked, and cut cells 0 and 3 off from 2 and 5
    let floor = Floor::new(pool(rt.alloc(), 0b010010)?)?;
    check_path(&rt, charge(&floor, 0, 3), 1, &[2])?;
    assert!(rt; charge(&floor, 0, 5).is_none());
    for (variable, from, to) in [
        (0, 0, 1),
        (0, 1, 0),
        (0, 1, 1),
        (0, 6, 0),
        (0, 255, 255),
        (2, 0, 0),
        (255, 0, 0),
        // a sample requires a cell too, so it is not free
        (1, 0, 1),
    ] {
        assert!(rt;
            detour::<Floor, Charge>(&floor, variable, from, to, &mut [0; 64]).is_none(),
            "variable {variable} from {from} to {to}"
        );
    }
    Ok(())
}
