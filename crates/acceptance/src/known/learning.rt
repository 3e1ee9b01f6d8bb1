// What is known at first, what an action needs, and what it adds.
ghost use Rattle.std.specs.Prelude.{◌≡◌};
ghost use Rattle.tasks.specs.Bounds.{all_below};
ghost use Rattle.reductions.specs.Steps.{has_value, needs_known, overridden};
ghost use Rattle.acceptance.specs.Knowns.{knows};

use crate::known::Known;
use std::array;
use tasks::Task;

impl Known {
    // At first those are known that the action requires.
    pub fn required_by<T: Task>(task: &T, action: u16) -> Known
        ensures { knows result ≡ (T.meant task.now).pre action }
    {
        Known {
            values: array::from_fn(|v| task.precondition(action, v as u8)),
        }
    }

    pub fn value(&self, variable: u8) -> Option<u8>
        ensures { result ≡ knows self.now variable }
    {
        *self.values.get(usize::from(variable))?
    }

    // Whether the variable is known to have the value.
    pub fn has(&self, variable: u8, value: u8) -> bool
        ensures { result ≡ has_value value (knows self.now variable) }
    {
        self.value(variable) == Some(value)
    }

    // Whether all that the action requires is known.
    pub fn allows<T: Task>(&self, task: &T, action: u16) -> bool
        ensures { result ≡ all_below (T.meant task.now).vars (λ w. needs_known ((T.meant task.now).pre action w) (knows self.now w)) }
    {
        (0..task.variables()).all(|v| {
            task.precondition(action, v)
                .is_none_or(|value| self.has(v, value))
        })
    }

    // What is known of a variable once it is set, if it is.
    fn after(&self, variable: u8, set: Option<u8>) -> Option<u8>
        ensures { result ≡ overridden set (knows self.now variable) }
    {
        set.or(self.value(variable))
    }

    // What the action sets is known then, variable by variable: an array that is made anew would ask for all 32.
    pub fn learn<T: Task>(&mut self, task: &T, action: u16)
        ensures { knows self.new ≡ (λ w. overridden ((T.meant task.now).eff action w) (knows self.old w)) }
    {
        for v in 0..task.variables() {
            self.values[usize::from(v)] = self.after(v, task.effect(action, v));
        }
    }
}
