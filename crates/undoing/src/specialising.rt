// Undoing a generalise step: the action becomes its twin where the variable has the value that the twin requires.
ghost use Rattle.std.specs.Prelude.{◌≡◌, ◌&&◌, if◌then◌else◌, nat_eq};
ghost use Rattle.reductions.specs.Steps.{has_value};
ghost use Rattle.reductions.specs.Undoing.{specialised};
ghost use Rattle.undoing.specs.Writing.{Writes};

use crate::writing::{Full, Writer};
use reductions::Generalise;
use tasks::Task;

// The twin, where another is the action and the variable has the value that the twin requires; else the other.
fn specialise_one<T: Task>(task: &T, step: &Generalise, value: u8, other: u16) -> u16
    ensures { result ≡ (if nat_eq other step.now.action && has_value value ((T.meant task.now).pre step.now.twin step.now.variable) then step.now.twin else other) }
{
    if other == step.action && task.precondition(step.twin, step.variable) == Some(value) {
        step.twin
    } else {
        other
    }
}

// Follows the list with the variable's value.
#[tactic(auto, using(crate::proofs::WritingOn::wrote_err, crate::proofs::SpecialiseLoop::specialise_more, crate::proofs::SpecialiseLoop::specialise_fails, crate::proofs::SpecialiseLoop::specialise_end))]
pub fn specialise<T: Task>(
    task: &T,
    step: &Generalise,
    list: &[u16],
    out: &mut Writer<'_>,
) -> Result<(), Full>
    ensures { Writes out.old (specialised (T.meant task.now) step.now.variable step.now.action step.now.twin ((T.meant task.now).init step.now.variable) list.now) out.new result }
{
    let mut value = task.initial(step.variable);
    for other in list {
        out.push(specialise_one(task, step, value, *other))?;
        value = task.effect(*other, step.variable).unwrap_or(value);
    }
    Ok(())
}
