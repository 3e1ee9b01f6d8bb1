// Lists of actions that stand in for another action.
ghost use Rattle.std.specs.Prelude.{◌≡◌};
ghost use Rattle.tasks.specs.Bounds.{all_below};
ghost use Rattle.reductions.specs.Steps.{known_after, is_set_by, stands_in, has_effect_of};
ghost use Rattle.reductions.specs.Acceptance.{listable as may_stand, first_unlisted};
ghost use Rattle.acceptance.specs.Knowns.{knows, known_in};

use crate::known::Known;
use tasks::Task;

// A list that is to stand in for an action of the task.
#[derive(Drop)]
pub struct StandIn<'a, T> {
    pub task: &'a T,
    pub action: u16,
    pub list: &'a [u16],
}

impl<T: Task> StandIn<'_, T> {
    // Whether the other may stand in the list: it is live, and not the action.
    fn may_list(&self, other: u16) -> bool
        ensures { result ≡ may_stand (T.meant self.now.task.now) self.now.action other }
    {
        self.task.action_live(other) && other != self.action
    }

    // The first action that may not stand in the list.
    pub fn first_unlisted(&self) -> Option<usize>
        ensures { result ≡ first_unlisted (T.meant self.now.task.now) self.now.action 0 self.now.list.now }
    {
        self.list.iter().position(|other| !self.may_list(*other))
    }

    // What is known after the list, or nothing where one of its actions needs more than is known.
    fn known_after(&self) -> Option<Known>
        ensures { known_in result ≡ known_after (T.meant self.now.task.now) ((T.meant self.now.task.now).pre self.now.action) self.now.list.now }
    {
        let mut known = Known::required_by(self.task, self.action);
        for other in self.list {
            if !known.allows(self.task, *other) {
                return None;
            }
            known.learn(self.task, *other);
        }
        Some(known)
    }

    // Whether an action of the list sets the variable.
    fn sets(&self, variable: u8) -> bool
        ensures { result ≡ is_set_by (T.meant self.now.task.now) self.now.list.now variable }
    {
        self.list
            .iter()
            .any(|other| self.task.effect(*other, variable).is_some())
    }

    // Whether the variable ends as after the action: with its effect, or as the action required it if only the list sets it.
    fn ends_alike(&self, known: &Known, variable: u8) -> bool
        ensures { result ≡ stands_in ((T.meant self.now.task.now).eff self.now.action variable) ((T.meant self.now.task.now).pre self.now.action variable) (is_set_by (T.meant self.now.task.now) self.now.list.now variable) (knows known.now variable) }
    {
        match self.task.effect(self.action, variable) {
            Some(value) => known.has(variable, value),
            None => {
                let before = self.task.precondition(self.action, variable);
                !self.sets(variable) || (before.is_some() && before == known.value(variable))
            }
        }
    }

    fn all_end_alike(&self, known: &Known) -> bool
        ensures { result ≡ all_below (T.meant self.now.task.now).vars (λ w. stands_in ((T.meant self.now.task.now).eff self.now.action w) ((T.meant self.now.task.now).pre self.now.action w) (is_set_by (T.meant self.now.task.now) self.now.list.now w) (knows known.now w)) }
    {
        (0..self.task.variables()).all(|w| self.ends_alike(known, w))
    }

    // Whether the list stands in for the action. A closure that takes what is known and borrows `self` is given no contract, hence the `else`.
    pub fn stands_in(&self) -> bool
        ensures { result ≡ has_effect_of (T.meant self.now.task.now) self.now.action self.now.list.now (known_after (T.meant self.now.task.now) ((T.meant self.now.task.now).pre self.now.action) self.now.list.now) }
    {
        let Some(known) = self.known_after() else {
            return false;
        };
        self.all_end_alike(&known)
    }
}
