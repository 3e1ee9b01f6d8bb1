// A table that is lawful, whatever steps it took.
ghost use Rattle.tasks.specs.Task.{Lawful};
ghost use Rattle.tables.specs.Tabled.{task_in};

use crate::rows::Rows;

pub mod answering;
pub mod copying;
pub mod reducing;

#[derive(Clone, Copy)]
pub struct Table {
    rows: Rows,
    ghost lawful: { ∥ Lawful (task_in rows) ∥₁ },
}
