// Reading a detour back from the value where it ends.
ghost use Rattle.std.specs.Prelude.{◌≡◌, ◌<◌, []};
ghost use Rattle.detours.specs.Detours.{most_values, read_off};
ghost use Rattle.detours.specs.Marks.{origin_at, trace_marks};
ghost use Rattle.detours.specs.Known.{known};
ghost use Rattle.detours.specs.Paths.{found_in, answered};

use crate::marks::{Mark, Origin};
use crate::path::Path;
use crate::search::Search;
use arrayvec::ArrayVec;
use tasks::Measure;

impl<M: Measure> Search<'_, M> {
    // What led to a value, and the blank origin past the last.
    fn origin(&self, value: u8) -> Origin
        ensures { result ≡ origin_at self.now.marks value }
    {
        self.marks
            .get(usize::from(value))
            .map_or(Origin::default(), |mark| mark.origin())
    }

    // The actions that lead back from `to` to `from`, read forward, at the total given.
    fn trace_back(&self, from: u8, to: u8, total: M::Total) -> Path<M::Total>
        ensures { found_in result ≡ record { actions = trace_marks self.now.marks from most_values to []; total = total } }
    {
        let mut actions = ArrayVec::<u16, 64>::new();
        let mut value = to;
        while value != from && !actions.is_full() {
            let origin = self.origin(value);
            actions.push(origin.via);
            value = origin.from;
        }
        actions.as_mut_slice().reverse();
        Path::new(actions, total)
    }

    // The path that is found, if `to` is reached.
    #[tactic(auto, using(crate::proofs::TraceLoop::unreached, crate::proofs::TraceLoop::path_read))]
    pub fn read_off(&self, from: u8, to: u8) -> Option<Path<M::Total>>
        requires { to < 64 }
        ensures { answered result ≡ read_off M.Measure.scale (known self.now) from to }
    {
        match self.marks[usize::from(to)] {
            Mark::Unreached => None,
            _ => Some(self.trace_back(from, to, self.totals[usize::from(to)])),
        }
    }
}
