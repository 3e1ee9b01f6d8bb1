// The cells of a floor: how many there are, which are open, and which lie side by side.
ghost use Rattle.std.specs.Prelude.{◌≡◌, ◌<◌, ◌≤◌, true};
ghost use Rattle.floors.specs.Floors.{pool_of, cell_count, open_cell, heading, neighbour_of, sides_fit, closed_place};

use crate::survey::Survey;
use std::iter;

#[derive(Clone, Copy)]
pub(crate) enum Direction {
    North,
    East,
    South,
    West,
}

impl Direction {
    // The direction of the move of this number from a cell, of four.
    pub(crate) fn of(number: u16) -> Direction
        ensures { result ≡ heading number }
    {
        match number {
            0 => Direction::North,
            1 => Direction::East,
            2 => Direction::South,
            _ => Direction::West,
        }
    }
}

// A survey whose sides are 1 to 8.
#[derive(Clone, Copy)]
pub(crate) struct Cells<'a> {
    pub(crate) survey: &'a Survey,
    ghost sides: { sides_fit (pool_of survey.now) ≡ true },
}

impl Cells<'_> {
    pub(crate) fn count(&self) -> u8
        ensures count { result ≡ cell_count (pool_of self.now.survey.now) }
        ensures few { result ≤ 64 }
    {
        self.survey.width * self.survey.height
    }

    // A cell of the floor that is not blocked.
    pub(crate) fn is_open(&self, cell: u8) -> bool
        ensures { result ≡ open_cell (pool_of self.now.survey.now) cell }
    {
        cell < self.count() && (self.survey.blocked >> cell) & 1 == 0
    }

    // The cell that lies next to a cell of the floor, open or not.
    pub(crate) fn neighbour(&self, cell: u8, direction: Direction) -> Option<u8>
        requires { cell < cell_count (pool_of self.now.survey.now) }
        ensures { result ≡ neighbour_of (pool_of self.now.survey.now) cell direction }
    {
        let width = self.survey.width;
        match direction {
            Direction::North => cell.checked_sub(width),
            Direction::East => (cell % width + 1 < width).then(|| cell + 1),
            Direction::South => (width < self.count() - cell).then(|| cell + width),
            Direction::West => (0 < cell % width).then(|| cell - 1),
        }
    }

    // The lowest place that is not open: the start's is 0, that of point k is k.
    pub(crate) fn closed_place(&self) -> Option<usize>
        ensures { result ≡ closed_place (pool_of self.now.survey.now) }
    {
        iter::once(self.survey.start)
            .chain(self.survey.points.iter().copied())
            .position(|cell| !self.is_open(cell))
    }
}
