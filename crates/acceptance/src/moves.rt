// Actions that do nothing but lead a variable from one value to another.
ghost use Rattle.std.specs.Prelude.{◌≡◌};
ghost use Rattle.reductions.specs.Steps.{is_move};

use tasks::Task;

// Whether the action requires the one value of the variable and sets the other, and mentions no other variable.
pub fn is_move<T: Task>(task: &T, action: u16, variable: u8, from: u8, to: u8) -> bool
    ensures { result ≡ is_move (T.meant task.now) action variable from to }
{
    (0..task.variables()).all(|w| {
        let (required, set) = (task.precondition(action, w), task.effect(action, w));
        if w == variable {
            required == Some(from) && set == Some(to)
        } else {
            required.is_none() && set.is_none()
        }
    })
}
