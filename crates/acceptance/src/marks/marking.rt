// One value is marked at first, and edges mark those that they lead to.
ghost use Rattle.std.specs.Prelude.{◌≡◌, false, true, not, ◌&&◌, replicate, slice_index_or, slice_set};
ghost use Rattle.reductions.specs.Reaching.{marked_source, all_marked};
ghost use Rattle.acceptance.specs.Marking.{mark_edges, mark_rounds};

use crate::marks::Marks;
use detours::edges::Edge;
use tasks::Task;

impl Marks {
    // The one value is marked, if it is one of the 64.
    fn of(value: u8) -> Marks
        ensures { result.marked ≡ slice_set (replicate 64 false) value true }
    {
        let mut marks = Marks {
            marked: [false; 64],
        };
        marks.mark(value);
        marks
    }

    // The values that edges lead to from one, after so many rounds.
    pub fn reachable_from(edges: &[Edge], rounds: u8, from: u8) -> Marks
        ensures { result.marked ≡ mark_rounds edges.now rounds (slice_set (replicate 64 false) from true) }
    {
        let mut marks = Marks::of(from);
        marks.mark_rounds(edges, rounds);
        marks
    }

    // Whether a value is marked; none past the last is.
    fn is_marked(&self, value: u8) -> bool
        ensures { result ≡ slice_index_or self.now.marked value false }
    {
        self.marked
            .get(usize::from(value))
            .copied()
            .unwrap_or(false)
    }

    // Marks a value, if it is one of the 64. No `get_mut`: its contract says nothing of what is written back.
    fn mark(&mut self, value: u8)
        ensures { self.new.marked ≡ slice_set self.old.marked value true }
    {
        if value < 64 {
            self.marked[usize::from(value)] = true;
        }
    }

    // Whether the edge leads from a marked value to one that is not.
    fn is_extended_by(&self, edge: &Edge) -> bool
        ensures { result ≡ (marked_source edge.now.from self.now.marked && not (slice_index_or self.now.marked edge.now.to false)) }
    {
        edge.from.is_none_or(|from| self.is_marked(from)) && !self.is_marked(edge.to)
    }

    // One round over the edges. Answers whether it marked a value; a chain that marks as it goes would tell a proof nothing.
    fn mark_targets(&mut self, edges: &[Edge]) -> bool
        ensures { (self.new.marked ≡ mark_edges edges.now self.old.marked) × ((result ≡ false → self.new.marked ≡ self.old.marked)) }
    {
        let mut more = false;
        for edge in edges {
            if self.is_extended_by(edge) {
                self.mark(edge.to);
                more = true;
            }
        }
        more
    }

    // So many rounds, as the definition counts them, or fewer when one marks nothing.
    fn mark_rounds(&mut self, edges: &[Edge], rounds: u8)
        ensures { self.new.marked ≡ mark_rounds edges.now rounds self.old.marked }
    {
        for _round in 0..rounds {
            if !self.mark_targets(edges) {
                break;
            }
        }
    }

    // Whether every live value of the variable is marked.
    pub fn are_all<T: Task>(&self, task: &T, variable: u8) -> bool
        ensures { result ≡ all_marked (T.meant task.now) variable self.now.marked }
    {
        (0..task.size(variable)).all(|value| !task.value_live(variable, value)
            || self.is_marked(value))
    }
}
