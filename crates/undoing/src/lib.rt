// Undoing a step: what a plan of the task after it becomes in the task before.
#![tactic(auto)]

ghost use Rattle.std.specs.Prelude.{◌≡◌, length};
ghost use Rattle.tasks.specs.Task.{priced};
ghost use Rattle.reductions.specs.Undoing.{undone as undone_list, inserted as inserted_list};
ghost use Rattle.reductions.specs.Named.{step_of};
ghost use Rattle.undoing.specs.UndoCalls.{undo_outcome};
ghost use Rattle.undoing.specs.Writing.{Undid};

use detours::clear;
use reductions::{Merge, Step};
use tasks::{Cause, Measure, Priced, Refusal, Task};

mod connecting;
mod refining;
mod specialising;
pub mod undone;
mod writing;

use connecting::Detours;
use refining::refine;
use specialising::specialise;
pub use undone::Undone;
use writing::{Full, Writer};

// Writes the list that is due from the front of the buffer, or answers that it does not fit. An array of 64 totals
// would say their number by its type, but nothing shows that an array of a generic total fits in memory.
fn write_undone<T: Priced, M: Measure>(
    task: &T,
    step: &Step,
    list: &[u16],
    buffer: &mut [u16],
    table: &mut [M::Total],
) -> Result<Undone<M::Total>, Full>
    requires { length table.old ≡ 64 }
    ensures { Undid M.Measure.scale (priced (T.Task.meant task.now) (T.Priced.tariff task.now)) (undone_list M.Measure.scale (priced (T.Task.meant task.now) (T.Priced.tariff task.now)) (step_of step.now) list.now) (inserted_list M.Measure.scale (priced (T.Task.meant task.now) (T.Priced.tariff task.now)) (step_of step.now) list.now) buffer.old buffer.new result }
{
    let mut out = Writer::new(buffer);
    // a step is plain data, of which a table is to be kept: so its kind is matched
    let inserted = match *step {
        Step::Merge(mut merge) => refine::<T, M, Merge>(task, &mut merge, list, &mut out)?,
        Step::Abstract { variable } => {
            let mut detours = Detours { variable, table };
            refine::<T, M, Detours<'_, M>>(task, &mut detours, list, &mut out)?
        }
        Step::Generalise(generalise) => {
            specialise(task, &generalise, list, &mut out)?;
            M::nothing()
        }
        Step::Variable { .. } | Step::Action { .. } => {
            out.push_all(list)?;
            M::nothing()
        }
    };
    Ok(Undone {
        length: out.written(),
        inserted,
    })
}

// Undoes a step: the list, which is followed in the task before the step, is written into the buffer with zeros behind it.
// Refused where the table is not of 64 totals, and then all is left alone, or where the list does not fit, and then the
// buffer holds zeros; the table is left with totals for nothing.
#[tactic(auto, using(crate::proofs::UndoOutcome::outcome_fits, crate::proofs::UndoOutcome::outcome_short))]
pub fn undo<T: Priced, M: Measure>(
    task: &T,
    step: &Step,
    list: &[u16],
    buffer: &mut [u16],
    table: &mut [M::Total],
) -> Result<Undone<M::Total>, Refusal>
    ensures { record { said = result; buffer = buffer.new; table = table.new } ≡ undo_outcome M.Measure.scale (priced (T.Task.meant task.now) (T.Priced.tariff task.now)) (step_of step.now) list.now buffer.old table.old }
{
    if table.len() != 64 {
        return Err(Cause::BufferSizes.at(0));
    }
    buffer.fill(0);
    let undone = write_undone::<T, M>(task, step, list, buffer, table);
    clear::<M>(table);
    if undone.is_err() {
        buffer.fill(0);
    }
    undone.map_err(|_| Cause::BufferShort.at(0))
}
