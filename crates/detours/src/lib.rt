// Detours of least total over the free actions of one variable.
#![tactic(auto)]

ghost use Rattle.std.specs.Prelude.{◌≡◌, length, replicate, if◌then◌else◌, None, nat_eq};
ghost use Rattle.tasks.specs.Task.{priced};
ghost use Rattle.detours.specs.Detours.{detour as due};
ghost use Rattle.detours.specs.DetourLaw.{DetourDecides};
ghost use Rattle.detours.specs.Paths.{answered};

use tasks::{Measure, Priced, Task};

pub mod edges;
mod marks;
pub mod path;
mod search;

use edges::gather;
pub use path::Path;
use search::Search;

// Searches in the totals that it is lent, and leaves them as they then are. A slice, as the caller lends it: with an array of 64
// in the search its goals of length stay open.
fn find<T: Priced, M: Measure>(
    task: &T,
    variable: u8,
    from: u8,
    to: u8,
    table: &mut [M::Total],
) -> Option<Path<M::Total>>
    requires { length table.old ≡ 64 }
    ensures { answered result ≡ due M.Measure.scale (priced (T.Task.meant task.now) (T.Priced.tariff task.now)) variable from to }
{
    if !task.value_live(variable, from) || !task.value_live(variable, to) {
        return None;
    }
    let edges = gather(task, variable);
    let mut search = Search::<M>::begin(table, from);
    search.settle_all(edges.as_slice());
    search.read_off(from, to)
}

// All totals are left for nothing.
pub fn clear<M: Measure>(table: &mut [M::Total])
    ensures { table.new ≡ replicate (length table.old) M.Measure.scale.nothing }
{
    table.fill_with(|| M::nothing());
}

// The detour of a variable from one value to another, searched in the caller's table of 64 totals. Nothing where one of
// them is not live, `to` cannot be reached or the table is not of 64, which is then left alone; otherwise it is cleared.
pub fn detour<T: Priced, M: Measure>(
    task: &T,
    variable: u8,
    from: u8,
    to: u8,
    table: &mut [M::Total],
) -> Option<Path<M::Total>>
    ensures result { answered result ≡ (if nat_eq (length table.old) 64 then due M.Measure.scale (priced (T.Task.meant task.now) (T.Priced.tariff task.now)) variable from to else None) }
    ensures table { table.new ≡ (if nat_eq (length table.old) 64 then replicate 64 M.Measure.scale.nothing else table.old) }
    ensures law { length table.old ≡ 64 → DetourDecides M.Measure.scale (priced (T.Task.meant task.now) (T.Priced.tariff task.now)) variable from to (answered result) }
{
    if table.len() != 64 {
        return None;
    }
    let found = find::<T, M>(task, variable, from, to, table);
    clear::<M>(table);
    found
}
