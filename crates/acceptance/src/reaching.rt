// Whether free actions lead a variable from every value to every other.
ghost use Rattle.std.specs.Prelude.{◌≡◌, true, false, not, ◌||◌, replicate, slice_set};
ghost use Rattle.reductions.specs.Reaching.{all_marked, connected};
ghost use Rattle.acceptance.specs.Marking.{mark_rounds};

use crate::marks::Marks;
use detours::edges::{Edge, gather};
use tasks::{Priced, Task};

// Whether the edges lead from a value to every live one, if it is live. There are as many rounds as the variable has values.
fn reaches_all<T: Task>(task: &T, variable: u8, edges: &[Edge], from: u8) -> bool
    ensures { result ≡ (not ((T.meant task.now).val_live variable from) || all_marked (T.meant task.now) variable (mark_rounds edges.now ((T.meant task.now).size variable) (slice_set (replicate 64 false) from true))) }
{
    !task.value_live(variable, from)
        || Marks::reachable_from(edges, task.size(variable), from).are_all(task, variable)
}

// Whether free actions lead from each live value to every other.
pub fn is_connected<T: Priced>(task: &T, variable: u8) -> bool
    ensures { result ≡ connected (T.Task.meant task.now) variable }
{
    let edges = gather(task, variable);
    (0..task.size(variable)).all(|value| reaches_all(task, variable, edges.as_slice(), value))
}
