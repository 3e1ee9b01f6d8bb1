// Rows in which a variable or an action is retired, or an action requires less.
ghost use Rattle.std.specs.Prelude.{◌≡◌, ℕ, ◌<◌, Bool, false, not, ◌==◌, slice_index_or};
ghost use Rattle.reductions.specs.Applying.{precondition_dropped, every};
ghost use Rattle.tables.specs.Tabled.{task_in, tabled, retired, at_prices};

use super::Rows;

// The numbers are in range: `get_mut`, which would ask, says nothing of what is written back.
impl Rows {
    pub(crate) fn retire_variable(&mut self, variable: u8)
        requires { variable < 32 }
        ensures { tabled self.new ≡ retired (tabled self.old) every (λ w. not (w == variable)) }
    {
        self.variables[usize::from(variable)].live = None;
    }

    pub(crate) fn retire_action(&mut self, action: u16)
        requires { action < 512 }
        ensures { tabled self.new ≡ retired (tabled self.old) (λ a. not (a == action)) every }
    {
        self.actions[usize::from(action)] = None;
    }

    pub(crate) fn retire_actions(&mut self, chosen: &[bool; 512])
        ensures { tabled self.new ≡ retired (tabled self.old) (λ a. not (slice_index_or chosen.now a false)) every }
    {
        for action in 0..512 {
            if chosen[usize::from(action)] {
                self.retire_action(action);
            }
        }
    }

    // The action requires no value of the variable any more.
    pub(crate) fn drop_precondition(&mut self, action: u16, variable: u8)
        requires { (action < 512) × (variable < 32) }
        ensures { tabled self.new ≡ at_prices (tabled self.old) (precondition_dropped (task_in self.old) variable action) }
    {
        if let Some(row) = &mut self.actions[usize::from(action)] {
            row.preconditions[usize::from(variable)] = None;
        }
    }
}
