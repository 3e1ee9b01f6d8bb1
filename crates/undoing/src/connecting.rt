// The actions that bring a variable from one value to another.
ghost use Rattle.std.specs.Prelude.{◌≡◌, [], ◌∷◌, length};
ghost use Rattle.tasks.specs.Task.{priced};
ghost use Rattle.detours.specs.Paths.{found_in};
ghost use Rattle.reductions.specs.Undoing.{merge_connector, detour_connector, with_total};
ghost use Rattle.undoing.specs.Bringings.{Way};

use detours::{Path, detour};
use reductions::Merge;
use tasks::{Measure, Priced, Task};

// What brings the variable of a step that is undone from one value to another.
pub trait Bringing<T: Priced, M: Measure> {
    ghost way: { Self → Way };

    fn variable(&self) -> u8
        ensures { result ≡ (way self.now).variable };

    fn bring(&mut self, task: &T, value: u8, wanted: u8) -> Path<M::Total>
        ensures path { found_in result ≡ with_total M.Measure.scale (priced (T.Task.meant task.now) (T.Priced.tariff task.now)) ((way self.old).connector (priced (T.Task.meant task.now) (T.Priced.tariff task.now)) value wanted) }
        ensures same_way { way self.new ≡ way self.old };
}

// An action with its weight.
fn single<T: Priced, M: Measure>(task: &T, action: u16) -> Path<M::Total>
    ensures { found_in result ≡ with_total M.Measure.scale (priced (T.Task.meant task.now) (T.Priced.tariff task.now)) (action ∷ []) }
{
    Path::single(action, M::weight(task.price(action)))
}

// By the one of its two actions that leads from the value to the other, if one does.
impl<T: Priced, M: Measure> Bringing<T, M> for Merge {
    ghost way = { λ s. record { variable = s.variable; connector = λ p. merge_connector s.from s.to s.forward s.back } };

    fn variable(&self) -> u8 {
        self.variable
    }

    fn bring(&mut self, task: &T, value: u8, wanted: u8) -> Path<M::Total> {
        if value == self.to && wanted == self.from {
            return single::<T, M>(task, self.back);
        }
        if value == self.from && wanted == self.to {
            return single::<T, M>(task, self.forward);
        }
        Path::empty(M::nothing())
    }
}

// By detours of the variable, which are searched in the caller's table.
#[derive(Drop)]
pub struct Detours<'a, M: Measure> {
    pub variable: u8,
    pub table: &'a mut [M::Total],
    ghost long: { length table.now ≡ 64 },
}

impl<T: Priced, M: Measure> Bringing<T, M> for Detours<'_, M> {
    ghost way = { λ s. record { variable = s.variable; connector = λ p. detour_connector M.Measure.scale p s.variable } };

    fn variable(&self) -> u8 {
        self.variable
    }

    fn bring(&mut self, task: &T, value: u8, wanted: u8) -> Path<M::Total> {
        detour::<T, M>(task, self.variable, value, wanted, self.table).unwrap_or_else(
            || Path::empty(M::nothing()),
        )
    }
}
