use super::{Floor, Survey};
use std::alloc::{AllocError, Global};
use std::test::Fail;
use tasks::{Cause, Priced, Refusal, Task};

// Each cell costs ten more than its number, a sample 500.
fn survey(
    heap: Global,
    width: u8,
    height: u8,
    blocked: u64,
    start: u8,
    points: &[u8],
) -> Result<Survey, AllocError> {
    let mut prices = Vec::new(heap);
    for cell in 0..u16::from(width) * u16::from(height) {
        prices.push(10 + cell)?;
    }
    Ok(Survey {
        width,
        height,
        blocked,
        prices,
        start,
        points: points.to_vec(heap)?,
        sampling: 500,
    })
}

// The refusal for a start or a point that is not open.
fn closed_at(place: usize) -> Option<Refusal> {
    Some(Refusal {
        cause: Cause::CellClosed,
        place,
    })
}

// What is refused of a floor of two cells by two.
fn turned_away(
    heap: Global,
    blocked: u64,
    start: u8,
    points: &[u8],
) -> Result<Option<Refusal>, AllocError> {
    Ok(Floor::new(survey(heap, 2, 2, blocked, start, points)?).err())
}

#[test]
fn one_cell_has_no_move(rt: HostRuntime) -> Result<(), Fail> {
    let floor = Floor::new(survey(rt.alloc(), 1, 1, 0, 0, &[])?)?;
    assert_eq!(rt;
        (floor.variables(), floor.actions(), floor.size(0)),
        (1, 4, 1)
    );
    for action in 0..5 {
        assert!(rt; !floor.action_live(action));
    }
    Ok(())
}

#[test]
fn the_largest_floor_has_points_that_share_a_cell(rt: HostRuntime) -> Result<(), Fail> {
    let floor = Floor::new(survey(rt.alloc(), 8, 8, 0, 0, &[63; 31])?)?;
    assert_eq!(rt;
        (floor.variables(), floor.actions(), floor.price(286)),
        (32, 287, 500)
    );
    assert_eq!(rt; floor.precondition(286, 0), Some(63));
    assert_eq!(rt;
        (floor.effect(286, 30), floor.effect(286, 31)),
        (None, Some(1))
    );
    assert!(rt; !floor.action_live(287));
    Ok(())
}

#[test]
fn rows_end_at_the_edges(rt: HostRuntime) -> Result<(), Fail> {
    // of three cells by two, with bits set above the last
    let floor = Floor::new(survey(rt.alloc(), 3, 2, 0xffc0, 0, &[])?)?;
    assert_eq!(rt;
        floor.effect(4 * 2 + 1, 0),
        None,
        "east of cell 2 is no cell"
    );
    assert_eq!(rt;
        floor.effect(4 * 3 + 3, 0),
        None,
        "west of cell 3 is no cell"
    );
    assert_eq!(rt;
        (floor.effect(4 * 2 + 2, 0), floor.price(4 * 2 + 2)),
        (Some(5), 15),
        "south of cell 2 is cell 5"
    );
    Ok(())
}

#[test]
fn closed_cells_are_refused(rt: HostRuntime) -> Result<(), Fail> {
    let heap = rt.alloc();
    assert_eq!(rt;
        turned_away(heap, 0b1111, 0, &[])?,
        closed_at(0),
        "all are blocked"
    );
    assert_eq!(rt;
        turned_away(heap, 0b0010, 1, &[])?,
        closed_at(0),
        "the start is blocked"
    );
    assert_eq!(rt;
        turned_away(heap, 0b0010, 0, &[3, 1, 4])?,
        closed_at(2),
        "the second point is blocked"
    );
    Ok(())
}
