// A table as a task, and as a priced one: it answers by its rows.
ghost use Rattle.std.specs.Prelude.{◌≡◌, option_map};
ghost use Rattle.tables.specs.Tabled.{task_in, variable_in, action_in, price_of};
ghost use Rattle.std.proofs.Math.Logic.{∥∥₁_elim};
ghost use Rattle.tables.specs.Propositions.{lawful_prop};

use super::Table;
use crate::rows::{Action, Domain};
use tasks::{Priced, Task};

impl Table {
    // What is said of a variable, if it is live.
    fn domain(&self, variable: u8) -> Option<&Domain>
        ensures { option_map (λ d. d.now) result ≡ (variable_in self.now.rows variable).live }
    {
        self.rows
            .variables
            .get(usize::from(variable))?
            .live
            .as_ref()
    }

    // What is said of an action, if it is live.
    fn action(&self, action: u16) -> Option<&Action>
        ensures { option_map (λ a. a.now) result ≡ action_in self.now.rows action }
    {
        self.rows.actions.get(usize::from(action))?.as_ref()
    }
}

impl Task for Table {
    ghost meant = { λ t. task_in t.rows };

    ghost lawful = { λ t. ∥∥₁_elim t.lawful (lawful_prop _) (λ h. h) };

    fn variables(&self) -> u8 {
        self.rows.variable_count
    }

    fn actions(&self) -> u16 {
        self.rows.action_count
    }

    fn size(&self, variable: u8) -> u8 {
        self.rows
            .variables
            .get(usize::from(variable))
            .map_or(0, |row| row.size)
    }

    fn variable_live(&self, variable: u8) -> bool {
        self.domain(variable).is_some()
    }

    fn value_live(&self, variable: u8, value: u8) -> bool {
        self.domain(variable)
            .and_then(|domain| domain.values.get(usize::from(value)).copied())
            .unwrap_or(false)
    }

    fn action_live(&self, action: u16) -> bool {
        self.action(action).is_some()
    }

    fn precondition(&self, action: u16, variable: u8) -> Option<u8> {
        let required = *self
            .action(action)?
            .preconditions
            .get(usize::from(variable))?;
        self.domain(variable)?;
        required
    }

    fn effect(&self, action: u16, variable: u8) -> Option<u8> {
        let set = *self.action(action)?.effects.get(usize::from(variable))?;
        self.domain(variable)?;
        set
    }

    fn initial(&self, variable: u8) -> u8 {
        self.domain(variable).map_or(0, |domain| domain.initial)
    }

    fn goal(&self, variable: u8) -> Option<u8> {
        self.domain(variable)?.goal
    }
}

impl Priced for Table {
    ghost tariff = { λ t a. price_of (action_in t.rows a) };

    fn price(&self, action: u16) -> u16 {
        self.action(action).map_or(0, |row| row.price)
    }
}
