// A value for each variable, and what running an action makes of it.
ghost use Rattle.std.specs.Prelude.{◌≡◌};
ghost use Rattle.tasks.specs.Bounds.{all_below};
ghost use Rattle.tasks.specs.Plans.{held, agrees, can_run, after, missed_goal};

use crate::task::Task;
use std::array;

// The values of the variables, 0 for those that are not live.
#[derive(Clone, Copy, PartialEq, Eq, Debug)]
pub struct State {
    values: [u8; 32],
}

impl State {
    // The state in which every plan starts.
    pub fn initial<T: Task>(task: &T) -> State
        ensures { held result ≡ (T.meant task.now).init }
    {
        State {
            values: array::from_fn(|v| task.initial(v as u8)),
        }
    }

    // The value of a variable, 0 for one that is not live.
    pub fn value(&self, variable: u8) -> u8
        ensures { result ≡ held self.now variable }
    {
        self.values.get(usize::from(variable)).copied().unwrap_or(0)
    }

    // Whether a variable has the value asked for, if one is.
    fn agrees(&self, variable: u8, asked: Option<u8>) -> bool
        ensures { result ≡ agrees asked (held self.now variable) }
    {
        asked.is_none_or(|x| self.value(variable) == x)
    }

    // Whether all preconditions of the action hold.
    fn holds<T: Task>(&self, task: &T, action: u16) -> bool
        ensures { result ≡ all_below (T.meant task.now).vars (λ v. agrees ((T.meant task.now).pre action v) (held self.now v)) }
    {
        (0..task.variables()).all(|v| self.agrees(v, task.precondition(action, v)))
    }

    // Whether the action is live and all its preconditions hold.
    pub fn can_run<T: Task>(&self, task: &T, action: u16) -> bool
        ensures { result ≡ can_run (T.meant task.now) (held self.now) action }
    {
        task.action_live(action) && self.holds(task, action)
    }

    // Sets the effects of the action, variable by variable: a state that is made anew would ask for all 32.
    pub fn run<T: Task>(&mut self, task: &T, action: u16)
        ensures { held self.new ≡ after (T.meant task.now) (held self.old) action }
    {
        for v in 0..task.variables() {
            if let Some(y) = task.effect(action, v) {
                self.values[usize::from(v)] = y;
            }
        }
    }

    // The lowest variable whose goal is missed.
    pub fn missed_goal<T: Task>(&self, task: &T) -> Option<u8>
        ensures { result ≡ missed_goal (T.meant task.now) (held self.now) }
    {
        (0..task.variables()).find(|variable| !self.agrees(*variable, task.goal(*variable)))
    }
}
