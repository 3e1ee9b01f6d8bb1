// A table made of a task.
ghost use Rattle.std.specs.Prelude.{◌≡◌};
ghost use Rattle.tasks.specs.Task.{priced};
ghost use Rattle.tables.specs.Tabled.{tabled};

use super::Table;
use crate::rows::Rows;
use tasks::Priced;

impl Table {
    // The table of a task, which is asked for each answer once.
    pub fn copy_of<T: Priced>(task: &T) -> Table
        ensures { tabled result.rows ≡ priced (T.Task.meant task.now) (T.Priced.tariff task.now) }
    {
        Table {
            rows: Rows::copy_of(task),
        }
    }
}
