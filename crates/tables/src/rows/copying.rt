// A task copied row by row. Out of range a task answers too, that nothing is there.
ghost use Rattle.std.specs.Prelude.{◌≡◌, ℕ, None, slice_index_or};
ghost use Rattle.tasks.specs.Task.{priced};
ghost use Rattle.tables.specs.Copied.{VariableCopied, ActionCopied};
ghost use Rattle.tables.specs.Tabled.{tabled};

use super::{Action, Domain, Rows, Variable};
use std::array;
use tasks::{Priced, Task};

impl Variable {
    fn copy_of<T: Task>(task: &T, variable: u8) -> Variable
        ensures { VariableCopied (T.meant task.now) variable result }
    {
        let size = task.size(variable);
        if !task.variable_live(variable) {
            return Variable { size, live: None };
        }
        let domain = Domain {
            values: array::from_fn(|value| task.value_live(variable, value as u8)),
            initial: task.initial(variable),
            goal: task.goal(variable),
        };
        Variable {
            size,
            live: Some(domain),
        }
    }
}

impl Action {
    // The row of an action, if it is live.
    fn copy_of<T: Priced>(task: &T, action: u16) -> Option<Action>
        ensures { ActionCopied (priced (T.Task.meant task.now) (T.Priced.tariff task.now)) action result }
    {
        if !task.action_live(action) {
            return None;
        }
        Some(Action {
            price: task.price(action),
            preconditions: array::from_fn(|v| task.precondition(action, v as u8)),
            effects: array::from_fn(|v| task.effect(action, v as u8)),
        })
    }
}

// The rows of the actions: a plain array, a form that is asked for (docs/DECISIONS.md), in which those that are not live are nothing.
fn copy_actions<T: Priced>(task: &T) -> [Option<Action>; 512]
    ensures { (a : ℕ) → ActionCopied (priced (T.Task.meant task.now) (T.Priced.tariff task.now)) a (slice_index_or result a None) }
{
    let mut actions = [None; 512];
    for action in 0..task.actions() {
        actions[usize::from(action)] = Action::copy_of(task, action);
    }
    actions
}

impl Rows {
    // Each answer is asked for once.
    pub(crate) fn copy_of<T: Priced>(task: &T) -> Rows
        ensures { tabled result ≡ priced (T.Task.meant task.now) (T.Priced.tariff task.now) }
    {
        Rows {
            variable_count: task.variables(),
            action_count: task.actions(),
            variables: array::from_fn(|v| Variable::copy_of(task, v as u8)),
            actions: copy_actions(task),
        }
    }
}
