// The floor of a pool, as a task.
ghost use Rattle.std.specs.Prelude.{◌≡◌, ◌<◌, ◌≤◌, true, false, length, is_some, IfOk, Some, None, vec_len, MatchResult};
ghost use Rattle.std.proofs.Common.{sym, ◌∙◌, arith};
ghost use Rattle.tasks.specs.Task.{priced};
ghost use Rattle.floors.specs.Floors.{pool_of, cell_count, sides_fit, closed_place, refusal_of, surveyed, tariff_of, neighbour_of, move_between, sample_at, deed_of};
ghost use Rattle.floors.specs.FloorLaw.{FloorLaw};
ghost use Rattle.floors.specs.Accepting.{accepted_from};
ghost use Rattle.floors.specs.Upholding.{lawful_task};

use crate::cells::{Cells, Direction};
use crate::survey::Survey;
use tasks::{Priced, Refusal, Task};

// A survey that was accepted.
#[derive(Drop)]
pub struct Floor {
    survey: Survey,
    ghost sides: { sides_fit (pool_of survey) ≡ true },
    ghost few: { vec_len survey.points ≤ 31 },
    ghost paid: { vec_len survey.prices ≡ cell_count (pool_of survey) },
    ghost clear: { is_some (closed_place (pool_of survey)) ≡ false },
}

// What a live action does.
#[derive(Clone, Copy)]
enum Deed {
    Move { from: u8, to: u8 },
    // at point number `point`, from 1, which is the variable that is set
    Sample { point: u8, cell: u8 },
}

impl Floor {
    // Refused are sides that are not 1 to 8, over 31 points, not one price for each cell, and a start or a point that is not open.
    pub fn new(survey: Survey) -> Result<Floor, Refusal>
        ensures exact { MatchResult result (λ f. (refusal_of (pool_of survey) ≡ None) × (f.survey ≡ survey)) (λ e. refusal_of (pool_of survey) ≡ Some e) }
        ensures law { IfOk result (λ f. FloorLaw (pool_of survey) (priced (surveyed (pool_of f.survey)) (tariff_of (pool_of f.survey)))) }
    {
        survey.check()?;
        Ok(Floor { survey })
    }

    fn cells(&self) -> Cells<'_>
        ensures { result.survey.now ≡ self.now.survey }
    {
        Cells {
            survey: &self.survey,
        }
    }

    // The move from one open cell to the next in a direction.
    fn crossing(&self, from: u8, direction: Direction) -> Option<Deed>
        requires { from < cell_count (pool_of self.now.survey) }
        ensures { result ≡ move_between (pool_of self.now.survey) from (neighbour_of (pool_of self.now.survey) from direction) }
    {
        let cells = self.cells();
        let to = cells.neighbour(from, direction)?;
        (cells.is_open(from) && cells.is_open(to)).then_some(Deed::Move { from, to })
    }

    // The sample that is taken at the point with this index, from 0.
    fn sample(&self, index: usize) -> Option<Deed>
        ensures { result ≡ sample_at (pool_of self.now.survey) index }
    {
        let cell = *self.survey.points.get(index)?;
        Some(Deed::Sample {
            point: index as u8 + 1,
            cell,
        })
    }

    // What an action does, if it is live: four moves for each cell, then a sample for each point.
    fn deed(&self, action: u16) -> Option<Deed>
        ensures { result ≡ deed_of (pool_of self.now.survey) action }
    {
        let moves = 4 * u16::from(self.cells().count());
        if action < moves {
            self.crossing((action / 4) as u8, Direction::of(action % 4))
        } else {
            self.sample(usize::from(action - moves))
        }
    }

    // How many points there are.
    fn points(&self) -> u8
        ensures count { result ≡ length self.now.survey.points.items }
        ensures few { result ≤ 31 }
    {
        self.survey.points.len() as u8
    }
}

impl Task for Floor {
    ghost meant = { λ f. surveyed (pool_of f.survey) };

    ghost lawful = { λ t.
        let p = pool_of t.survey in
        lawful_task p (accepted_from p t.sides (omega (arith, t.few, t.survey.points.ok.0)) (sym t.survey.prices.ok.0 ∙ t.paid) t.clear) };

    fn variables(&self) -> u8 {
        1 + self.points()
    }

    fn actions(&self) -> u16 {
        4 * u16::from(self.cells().count()) + u16::from(self.points())
    }

    fn size(&self, variable: u8) -> u8 {
        if variable == 0 {
            self.cells().count()
        } else if variable <= self.points() {
            2
        } else {
            0
        }
    }

    fn variable_live(&self, variable: u8) -> bool {
        variable < self.variables()
    }

    fn value_live(&self, variable: u8, value: u8) -> bool {
        if variable == 0 {
            self.cells().is_open(value)
        } else {
            variable <= self.points() && value < 2
        }
    }

    fn action_live(&self, action: u16) -> bool {
        self.deed(action).is_some()
    }

    fn precondition(&self, action: u16, variable: u8) -> Option<u8> {
        match self.deed(action)? {
            Deed::Move { from, .. } if variable == 0 => Some(from),
            Deed::Sample { cell, .. } if variable == 0 => Some(cell),
            _ => None,
        }
    }

    fn effect(&self, action: u16, variable: u8) -> Option<u8> {
        match self.deed(action)? {
            Deed::Move { to, .. } if variable == 0 => Some(to),
            Deed::Sample { point, .. } if variable == point => Some(1),
            _ => None,
        }
    }

    fn initial(&self, variable: u8) -> u8 {
        if variable == 0 { self.survey.start } else { 0 }
    }

    fn goal(&self, variable: u8) -> Option<u8> {
        (1..=self.points()).contains(&variable).then_some(1)
    }
}

impl Priced for Floor {
    ghost tariff = { λ f. tariff_of (pool_of f.survey) };

    fn price(&self, action: u16) -> u16 {
        match self.deed(action) {
            Some(Deed::Move { to, .. }) => self.survey.prices[usize::from(to)],
            Some(Deed::Sample { .. }) => self.survey.sampling,
            None => 0,
        }
    }
}
