// Checking a plan, and what it costs.
ghost use Rattle.std.specs.Prelude.{◌≡◌};
ghost use Rattle.tasks.specs.Task.{priced};
ghost use Rattle.tasks.specs.Plans.{answered, ran_from, checked};
ghost use Rattle.tasks.specs.Runs.{RunDecides};
ghost use Rattle.tasks.specs.Totals.{total as total_of, checked_total};

use crate::measure::Measure;
use crate::refusal::{Cause, Refusal};
use crate::state::State;
use crate::task::{Priced, Task};

// Runs each action of the list in turn: the state at the end, or the index of the first that cannot run. A `for` with
// index, a form that is asked for.
fn run_all<T: Task>(task: &T, list: &[u16]) -> Result<State, usize>
    ensures { answered result ≡ ran_from (T.meant task.now) (T.meant task.now).init 0 list.now }
{
    let mut state = State::initial(task);
    for (place, action) in list.iter().enumerate() {
        if !state.can_run(task, *action) {
            return Err(place);
        }
        state.run(task, *action);
    }
    Ok(state)
}

// What `check` answers.
fn judge<T: Task>(task: &T, plan: &[u16]) -> Result<State, Refusal>
    ensures { answered result ≡ checked (T.meant task.now) plan.now }
{
    let state = run_all(task, plan).map_err(|place| Cause::CannotRun.at(place))?;
    match state.missed_goal(task) {
        Some(variable) => Err(Cause::GoalMissed.at(usize::from(variable))),
        None => Ok(state),
    }
}

// Refused at the index of the first action that cannot run, then at the lowest variable whose goal is missed;
// otherwise the state at the end.
pub fn check<T: Task>(task: &T, plan: &[u16]) -> Result<State, Refusal>
    ensures result { answered result ≡ checked (T.meant task.now) plan.now }
    ensures law { RunDecides (T.meant task.now) plan.now (answered result) }
{
    judge(task, plan)
}

// The weights of the actions, joined. The list need not be a plan.
pub fn total<T: Priced, M: Measure>(task: &T, plan: &[u16]) -> M::Total
    ensures { result ≡ total_of M.Measure.scale (priced (T.Task.meant task.now) (T.Priced.tariff task.now)) plan.now }
{
    plan.iter().fold(M::nothing(), |sum, action| {
        M::join(sum, M::weight(task.price(*action)))
    })
}

// Refused as `check` refuses; otherwise the total of the plan.
pub fn check_total<T: Priced, M: Measure>(task: &T, plan: &[u16]) -> Result<M::Total, Refusal>
    ensures { result ≡ checked_total M.Measure.scale (priced (T.Task.meant task.now) (T.Priced.tariff task.now)) plan.now }
{
    check(task, plan)?;
    Ok(total::<T, M>(task, plan))
}
