// Rows in which every mention of a value reads another.
ghost use Rattle.std.specs.Prelude.{◌≡◌, ℕ, ◌<◌, true, false, not, ◌&&◌, if◌then◌else◌, None, ◌==◌, is_some, slice_index_or};
ghost use Rattle.reductions.specs.Applying.{rename_to, value_renamed};
ghost use Rattle.tables.specs.Renamed.{VariableRenamed, ActionRenamed};
ghost use Rattle.tables.specs.Tabled.{task_in, tabled, at_prices};

use super::{Action, Domain, Rows, Variable};
use std::array;

// A value of a variable, and the one that it becomes.
#[derive(Clone, Copy)]
pub(crate) struct Renaming {
    pub(crate) variable: u8,
    pub(crate) from: u8,
    pub(crate) to: u8,
}

impl Renaming {
    // The new name of a value of the variable.
    fn name(self, value: u8) -> u8
        ensures { result ≡ (if value == self.from then self.to else value) }
    {
        if value == self.from { self.to } else { value }
    }

    // The new name of the value that is asked for or set, if one is.
    fn mention(self, value: Option<u8>) -> Option<u8>
        ensures { result ≡ rename_to self.from self.to value }
    {
        value.map(|named| self.name(named))
    }

    // One entry is written: the others name values of other variables.
    fn rename_fact(self, facts: &mut [Option<u8>; 32])
        requires { self.variable < 32 }
        ensures { (w : ℕ) → slice_index_or facts.new w None ≡ (if w == self.variable then rename_to self.from self.to (slice_index_or facts.old w None) else slice_index_or facts.old w None) }
    {
        let v = usize::from(self.variable);
        facts[v] = self.mention(facts[v]);
    }

    // The value is retired, and what named it names the other.
    fn domain(self, old: Domain) -> Domain
        ensures values { (x : ℕ) → slice_index_or result.values x false ≡ (slice_index_or old.values x false && not (x == self.from)) }
        ensures initial { result.initial ≡ (if old.initial == self.from then self.to else old.initial) }
        ensures goal { result.goal ≡ rename_to self.from self.to old.goal }
    {
        Domain {
            values: array::from_fn(|value| old.values[value] && value != usize::from(self.from)),
            initial: self.name(old.initial),
            goal: self.mention(old.goal),
        }
    }

    // The row of the variable, which is live.
    fn variable_row(self, old: Variable) -> Variable
        requires { is_some old.live ≡ true }
        ensures { VariableRenamed true self.from self.to old result }
    {
        Variable {
            size: old.size,
            live: old.live.map(|domain| self.domain(domain)),
        }
    }

    fn rename_action(self, action: &mut Option<Action>)
        requires { self.variable < 32 }
        ensures { ActionRenamed self.variable self.from self.to action.old action.new }
    {
        if let Some(row) = action {
            self.rename_fact(&mut row.preconditions);
            self.rename_fact(&mut row.effects);
        }
    }

    // In place, since the rows are large.
    fn rename_actions(self, actions: &mut [Option<Action>; 512])
        requires { self.variable < 32 }
        ensures { (a : ℕ) → ActionRenamed self.variable self.from self.to (slice_index_or actions.old a None) (slice_index_or actions.new a None) }
    {
        for action in actions {
            self.rename_action(action);
        }
    }
}

impl Rows {
    // Every mention of the value of a live variable reads the other, and the value is retired.
    pub(crate) fn rename(&mut self, renaming: Renaming)
        requires { (renaming.variable < 32) × ((task_in self.old).var_live renaming.variable ≡ true) }
        ensures { tabled self.new ≡ at_prices (tabled self.old) (value_renamed (task_in self.old) renaming.variable renaming.from renaming.to) }
    {
        let v = usize::from(renaming.variable);
        self.variables[v] = renaming.variable_row(self.variables[v]);
        renaming.rename_actions(&mut self.actions);
    }
}
