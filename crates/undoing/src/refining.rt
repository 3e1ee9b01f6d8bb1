// Undoing a merge or an abstract step: actions are inserted that bring the variable to each value that is required.
ghost use Rattle.std.specs.Prelude.{◌≡◌, IfOk};
ghost use Rattle.tasks.specs.Task.{priced};
ghost use Rattle.tasks.specs.Plans.{over};
ghost use Rattle.tasks.specs.Totals.{total};
ghost use Rattle.undoing.specs.Bringings.{brought, refined_by, inserted_by};
ghost use Rattle.undoing.specs.Writing.{Writes};

use crate::connecting::Bringing;
use crate::writing::{Full, Writer};
use tasks::{Measure, Priced, Task};

// What the variable has after the action, which ran with what it requires.
fn value_after<T: Task>(task: &T, variable: u8, action: u16, value: u8) -> u8
    ensures { result ≡ over ((T.meant task.now).eff action variable) (over ((T.meant task.now).pre action variable) value) }
{
    task.effect(action, variable)
        .or(task.precondition(action, variable))
        .unwrap_or(value)
}

// Writes the actions that bring the variable from its value to the one that is wanted, if one is. Answers their total.
fn insert<T: Priced, M: Measure, B: Bringing<T, M>>(
    task: &T,
    by: &mut B,
    value: u8,
    wanted: Option<u8>,
    out: &mut Writer<'_>,
) -> Result<M::Total, Full>
    ensures writes { Writes out.old (brought (B.way by.old) (priced (T.Task.meant task.now) (T.Priced.tariff task.now)) value wanted) out.new result }
    ensures inserted { IfOk result (λ x. x ≡ total M.Measure.scale (priced (T.Task.meant task.now) (T.Priced.tariff task.now)) (brought (B.way by.old) (priced (T.Task.meant task.now) (T.Priced.tariff task.now)) value wanted)) }
    ensures same_way { B.way by.new ≡ B.way by.old }
{
    let Some(wanted) = wanted else {
        return Ok(M::nothing());
    };
    let path = by.bring(task, value, wanted);
    out.push_all(path.actions())?;
    Ok(path.total())
}

// Follows the list with the variable's value, from its initial one to its goal. Answers the total of what is inserted.
#[tactic(auto, using(crate::proofs::WritingOn::wrote_err, crate::proofs::RefineLoop::refine_more, crate::proofs::RefineLoop::refine_fails, crate::proofs::RefineLoop::action_fails, crate::proofs::RefineLoop::refine_end, crate::proofs::RefineLoop::inserted_more, crate::proofs::RefineLoop::inserted_end))]
pub fn refine<T: Priced, M: Measure, B: Bringing<T, M>>(
    task: &T,
    by: &mut B,
    list: &[u16],
    out: &mut Writer<'_>,
) -> Result<M::Total, Full>
    ensures writes { Writes out.old (refined_by (B.way by.old) (priced (T.Task.meant task.now) (T.Priced.tariff task.now)) list.now) out.new result }
    ensures inserted { IfOk result (λ x. x ≡ total M.Measure.scale (priced (T.Task.meant task.now) (T.Priced.tariff task.now)) (inserted_by (B.way by.old) (priced (T.Task.meant task.now) (T.Priced.tariff task.now)) list.now)) }
{
    let variable = by.variable();
    let mut value = task.initial(variable);
    let mut inserted = M::nothing();
    for action in list {
        let wanted = task.precondition(*action, variable);
        let total = insert::<T, M, B>(task, by, value, wanted, out)?;
        out.push(*action)?;
        inserted = M::join(inserted, total);
        value = value_after(task, variable, *action, value);
    }
    let total = insert::<T, M, B>(task, by, value, task.goal(variable), out)?;
    Ok(M::join(inserted, total))
}
