// When a step is refused, on any priced task.
#![tactic(auto)]

ghost use Rattle.std.specs.Prelude.{◌≡◌, if◌then◌else◌, Ok, Err};
ghost use Rattle.tasks.specs.Task.{priced};
ghost use Rattle.reductions.specs.Steps.{variable as variable_step, action as action_step, abstract as abstract_step};
ghost use Rattle.reductions.specs.Acceptance.{refusal_of, answer_of};
ghost use Rattle.reductions.specs.Named.{merge_of, generalise_of, step_of};

use reductions::{Generalise, Merge, Step};
use tasks::{Cause, Priced, Refusal, Task};

mod counting;
mod known;
mod lists;
mod marks;
mod moves;
mod reaching;
mod twins;

use counting::live_values;
use lists::StandIn;
use moves::is_move;
use reaching::is_connected;
use twins::are_twins;

// Refused for the cause, at the place, unless the condition holds.
fn refuse_unless(holds: bool, cause: Cause, place: usize) -> Result<(), Refusal>
    ensures { result ≡ (if holds then Ok tt else Err (record { cause = cause; place = place })) }
{
    if holds { Ok(()) } else { Err(cause.at(place)) }
}

fn accept_merge<T: Priced>(task: &T, step: Merge) -> Result<(), Refusal>
    ensures { result ≡ answer_of (refusal_of (priced (T.Task.meant task.now) (T.Priced.tariff task.now)) (merge_of step)) }
{
    let Merge {
        variable,
        from,
        to,
        forward,
        back,
    } = step;
    refuse_unless(task.variable_live(variable), Cause::NotLive, 0)?;
    refuse_unless(task.value_live(variable, from), Cause::NotLive, 1)?;
    refuse_unless(task.value_live(variable, to), Cause::NotLive, 2)?;
    refuse_unless(task.action_live(forward), Cause::NotLive, 3)?;
    refuse_unless(task.action_live(back), Cause::NotLive, 4)?;
    let fits = from != to
        && is_move(task, forward, variable, from, to)
        && is_move(task, back, variable, to, from);
    refuse_unless(fits, Cause::MergeUnfit, 0)
}

fn accept_generalise<T: Priced>(task: &T, step: Generalise) -> Result<(), Refusal>
    ensures { result ≡ answer_of (refusal_of (priced (T.Task.meant task.now) (T.Priced.tariff task.now)) (generalise_of step)) }
{
    refuse_unless(task.variable_live(step.variable), Cause::NotLive, 0)?;
    refuse_unless(task.action_live(step.action), Cause::NotLive, 1)?;
    refuse_unless(task.action_live(step.twin), Cause::NotLive, 2)?;
    let fits = live_values(task, step.variable) == 2 && are_twins(task, step);
    refuse_unless(fits, Cause::GeneraliseUnfit, 0)
}

fn accept_variable<T: Priced>(task: &T, variable: u8) -> Result<(), Refusal>
    ensures { result ≡ answer_of (refusal_of (priced (T.Task.meant task.now) (T.Priced.tariff task.now)) (variable_step variable)) }
{
    refuse_unless(task.variable_live(variable), Cause::NotLive, 0)?;
    refuse_unless(live_values(task, variable) == 1, Cause::VariableUnfit, 0)
}

fn accept_action<T: Priced>(task: &T, action: u16, list: &[u16]) -> Result<(), Refusal>
    ensures { result ≡ answer_of (refusal_of (priced (T.Task.meant task.now) (T.Priced.tariff task.now)) (action_step action list.now)) }
{
    refuse_unless(task.action_live(action), Cause::NotLive, 0)?;
    refuse_unless(list.len() <= 8, Cause::ListUnfit, 8)?;
    let stand_in = StandIn { task, action, list };
    if let Some(place) = stand_in.first_unlisted() {
        return Err(Cause::ListUnfit.at(place));
    }
    refuse_unless(stand_in.stands_in(), Cause::ActionUnfit, 0)
}

fn accept_abstract<T: Priced>(task: &T, variable: u8) -> Result<(), Refusal>
    ensures { result ≡ answer_of (refusal_of (priced (T.Task.meant task.now) (T.Priced.tariff task.now)) (abstract_step variable)) }
{
    refuse_unless(task.variable_live(variable), Cause::NotLive, 0)?;
    refuse_unless(is_connected(task, variable), Cause::AbstractUnfit, 0)
}

// Refused where a number that the step names is not live, at its position; then for its list; then for its conditions.
pub fn accept<T: Priced>(task: &T, step: &Step) -> Result<(), Refusal>
    ensures { result ≡ answer_of (refusal_of (priced (T.Task.meant task.now) (T.Priced.tariff task.now)) (step_of step.now)) }
{
    // a step is plain data, of which a table is to be kept: so its kind is matched
    match *step {
        Step::Merge(step) => accept_merge(task, step),
        Step::Generalise(step) => accept_generalise(task, step),
        Step::Variable { variable } => accept_variable(task, variable),
        Step::Action { action, list } => accept_action(task, action, list),
        Step::Abstract { variable } => accept_abstract(task, variable),
    }
}

// Why the step is refused, if it is: what `accept` answers, for those who ask and do not refuse.
pub fn refusal_of<T: Priced>(task: &T, step: &Step) -> Option<Refusal>
    ensures { result ≡ refusal_of (priced (T.Task.meant task.now) (T.Priced.tariff task.now)) (step_of step.now) }
{
    accept(task, step).err()
}
