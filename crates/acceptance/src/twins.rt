// Actions that differ only in the value of one variable that they require.
ghost use Rattle.std.specs.Prelude.{◌≡◌, ◌&&◌, ◌==◌};
ghost use Rattle.tasks.specs.Task.{priced};
ghost use Rattle.detours.specs.Free.{absent};
ghost use Rattle.reductions.specs.Steps.{both_differ, agree_except};

use reductions::Generalise;
use tasks::{Priced, Task};

// Whether the two say the same of every variable but the one.
fn agree_except<T: Task>(task: &T, variable: u8, action: u16, twin: u16) -> bool
    ensures { result ≡ agree_except (T.meant task.now) variable action twin }
{
    (0..task.variables()).all(|w| {
        w == variable
            || (task.precondition(action, w) == task.precondition(twin, w)
                && task.effect(action, w) == task.effect(twin, w))
    })
}

// Whether both are there and differ, which `!=` alone does not say.
fn both_differ(x: Option<u8>, y: Option<u8>) -> bool
    ensures { result ≡ both_differ x y }
{
    x.zip(y).is_some_and(|(x, y)| x != y)
}

// Whether they require different values of the variable, leave it alone, cost the same and agree on all others.
pub fn are_twins<T: Priced>(task: &T, step: Generalise) -> bool
    ensures { result ≡ (both_differ ((T.Task.meant task.now).pre step.action step.variable) ((T.Task.meant task.now).pre step.twin step.variable) && absent ((T.Task.meant task.now).eff step.action step.variable) && absent ((T.Task.meant task.now).eff step.twin step.variable) && (priced (T.Task.meant task.now) (T.Priced.tariff task.now)).price step.action == (priced (T.Task.meant task.now) (T.Priced.tariff task.now)).price step.twin && agree_except (T.Task.meant task.now) step.variable step.action step.twin) }
{
    let Generalise {
        variable,
        action,
        twin,
    } = step;
    both_differ(
        task.precondition(action, variable),
        task.precondition(twin, variable),
    ) && task.effect(action, variable).is_none()
        && task.effect(twin, variable).is_none()
        && task.price(action) == task.price(twin)
        && agree_except(task, variable, action, twin)
}
