// What is known of a floor, before and after it is checked.
ghost use Rattle.std.specs.Prelude.{◌≡◌, true, false, None, Some, MatchOption, MatchResult};
ghost use Rattle.floors.specs.Floors.{pool_of, sides_fit, refusal_of};

use crate::cells::Cells;
use tasks::{Cause, Refusal};

#[derive(Drop)]
pub struct Survey {
    pub width: u8,
    pub height: u8,
    // bit c, the least being 0, blocks cell c; those above the last cell are ignored
    pub blocked: u64,
    // what it costs to move to each cell
    pub prices: Vec<u16>,
    pub start: u8,
    // the cell of each point
    pub points: Vec<u8>,
    // what it costs to take a sample
    pub sampling: u16,
}

impl Survey {
    // Its cells, if both sides are 1 to 8.
    fn cells(&self) -> Option<Cells<'_>>
        ensures { MatchOption result (sides_fit (pool_of self.now) ≡ false) (λ c. (sides_fit (pool_of self.now) ≡ true) × (c.survey.now ≡ self.now)) }
    {
        let sides_fit = (1..=8).contains(&self.width) && (1..=8).contains(&self.height);
        // no `then`: its closure would make the ghost field without the test
        if sides_fit {
            Some(Cells { survey: self })
        } else {
            None
        }
    }

    // Whether it makes a floor.
    pub(crate) fn check(&self) -> Result<(), Refusal>
        ensures { MatchResult result (λ _. refusal_of (pool_of self.now) ≡ None) (λ e. refusal_of (pool_of self.now) ≡ Some e) }
    {
        let cells = self.cells().ok_or(Cause::FloorSides.at(0))?;
        if self.points.len() > 31 {
            return Err(Cause::PointCount.at(0));
        }
        if self.prices.len() != usize::from(cells.count()) {
            return Err(Cause::PriceCount.at(0));
        }
        match cells.closed_place() {
            Some(place) => Err(Cause::CellClosed.at(place)),
            None => Ok(()),
        }
    }
}
