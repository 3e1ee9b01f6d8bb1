// The search: values are settled in the order of their totals, the lower number first at a tie.
ghost use Rattle.std.specs.Prelude.{◌≡◌, ℕ, ◌<◌, ◌&&◌, length, Some, None};
ghost use Rattle.detours.specs.Detours.{improves, least_open, begun};
ghost use Rattle.detours.specs.Marks.{is_open, total_of};

mod settling;
mod tracing;

use crate::marks::{Mark, Origin};
use tasks::Measure;

// What is known of each value: its mark, and in the caller's table the total that it has once it is reached.
#[derive(Drop)]
pub struct Search<'a, M: Measure> {
    marks: [Mark; 64],
    totals: &'a mut [M::Total],
    ghost long: { length totals.now ≡ 64 },
}

// Whether a value can be settled before the best one so far: it is open, and that has a strictly greater total.
fn precedes<M: Measure>(mark: Mark, total: M::Total, best: Option<(u8, M::Total)>) -> bool
    ensures { result ≡ (is_open mark && improves M.Measure.scale total (total_of best)) }
{
    matches!(mark, Mark::Open(_)) && best.is_none_or(|(_, least)| !M::at_most(least, total))
}

impl<'a, M: Measure> Search<'a, M> {
    ghost use Rattle.detours.specs.Known.{known};

    // `from` has the total of nothing, the others have none yet.
    pub fn begin(totals: &'a mut [M::Total], from: u8) -> Self
        requires { (length totals.old ≡ 64) × (from < 64) }
        ensures { known result ≡ begun M.Measure.scale from }
    {
        let mut marks = [Mark::Unreached; 64];
        marks[usize::from(from)] = Mark::Open(Origin::default());
        totals[usize::from(from)] = M::nothing();
        Search { marks, totals }
    }

    // The unsettled value of least total, the lower number at a tie. The loop goes over the numbers, since one is the answer,
    // and both the marks and the totals are read at it.
    #[tactic(auto, using(crate::proofs::LeastLoop::least_taken, crate::proofs::LeastLoop::least_left))]
    fn least_open(&self) -> Option<u8>
        ensures least { result ≡ least_open M.Measure.scale (known self.now) 0 None None }
        ensures within { (u : ℕ) → result ≡ Some u → u < 64 }
    {
        let mut best = None;
        for value in 0..64u8 {
            let total = self.totals[usize::from(value)];
            if precedes::<M>(self.marks[usize::from(value)], total, best) {
                best = Some((value, total));
            }
        }
        best.map(|(value, _)| value)
    }
}
