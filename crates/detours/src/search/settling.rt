// Settling a value after another, and trying the edges that lead from it.
ghost use Rattle.std.specs.Prelude.{◌≡◌, ◌<◌, not, ◌&&◌, Some};
ghost use Rattle.detours.specs.Detours.{improves, relax as relaxed, most_values};
ghost use Rattle.detours.specs.Edges.{TargetsFit};
ghost use Rattle.detours.specs.Marks.{label_of};
ghost use Rattle.detours.specs.Known.{known};
ghost use Rattle.detours.specs.EdgeSearch.{relax_edges, settle_edges};

use crate::edges::Edge;
use crate::marks::{Mark, Origin};
use crate::search::Search;
use tasks::Measure;

// Whether a target with such a mark and total takes another total: it is not settled, and had none or a greater one.
fn takes<M: Measure>(mark: Mark, old: M::Total, total: M::Total) -> bool
    ensures { result ≡ (not (label_of mark old).done && improves M.Measure.scale total (label_of mark old).sum) }
{
    match mark {
        Mark::Unreached => true,
        Mark::Open(_) => !M::at_most(old, total),
        Mark::Settled(_) => false,
    }
}

// The total with one action more.
fn further<M: Measure>(total: M::Total, price: u16) -> M::Total
    ensures { result ≡ M.Measure.scale.join total (M.Measure.scale.weight price) }
{
    M::join(total, M::weight(price))
}

impl<M: Measure> Search<'_, M> {
    // The edge leads from the value at the total, which its target takes or not.
    #[tactic(auto, using(crate::proofs::RelaxLoop::relax_takes, crate::proofs::RelaxLoop::relax_leaves))]
    fn relax(&mut self, value: u8, edge: Edge, total: M::Total)
        requires { edge.to < 64 }
        ensures { known self.new ≡ relaxed M.Measure.scale (known self.old) value edge.action total (Some edge.to) }
    {
        let to = usize::from(edge.to);
        if takes::<M>(self.marks[to], self.totals[to], total) {
            self.marks[to] = Mark::Open(Origin {
                via: edge.action,
                from: value,
            });
            self.totals[to] = total;
        }
    }

    // The edges that lead from a value which is settled at the total.
    #[tactic(auto, using(crate::proofs::RelaxLoop::edge_relaxed, crate::proofs::RelaxLoop::edge_skipped, crate::proofs::RelaxLoop::edges_end))]
    fn relax_all(&mut self, edges: &[Edge], value: u8, total: M::Total)
        requires { TargetsFit edges.now }
        ensures { known self.new ≡ relax_edges M.Measure.scale value total edges.now (known self.old) }
    {
        for edge in edges {
            if edge.leads_from(value) {
                self.relax(value, *edge, further::<M>(total, edge.price));
            }
        }
    }

    // Value after value is settled and its edges are tried, until none can be settled.
    #[tactic(auto, using(crate::proofs::SettleLoop::turns_end, crate::proofs::SettleLoop::fewer, crate::proofs::SettleLoop::turn_more))]
    pub fn settle_all(&mut self, edges: &[Edge])
        requires { TargetsFit edges.now }
        ensures { known self.new ≡ settle_edges M.Measure.scale edges.now most_values (known self.old) }
    {
        while let Some(value) = self.least_open() {
            let place = usize::from(value);
            let total = self.totals[place];
            self.marks[place] = self.marks[place].settled();
            self.relax_all(edges, value, total);
        }
    }
}
