// How many values of a variable are live.
ghost use Rattle.std.specs.Prelude.{◌≡◌};
ghost use Rattle.reductions.specs.Steps.{live_values};

use tasks::Task;

pub fn live_values<T: Task>(task: &T, variable: u8) -> usize
    ensures { result ≡ live_values (T.meant task.now) variable ((T.meant task.now).size variable) }
{
    (0..task.size(variable))
        .filter(|value| task.value_live(variable, *value))
        .count()
}
