// A table takes a step, or refuses it.
ghost use Rattle.std.specs.Prelude.{◌≡◌, ℕ, ◌<◌, true, false, slice_index_or};
ghost use Rattle.detours.specs.Free.{is_free as free_in};
ghost use Rattle.reductions.specs.Acceptance.{accepted};
ghost use Rattle.reductions.specs.Applying.{applied};
ghost use Rattle.reductions.specs.Named.{merge_of, generalise_of, step_of};
ghost use Rattle.reductions.specs.Steps.{abstract as abstract_step};
ghost use Rattle.tables.specs.Reducing.{refused_by, reduced_by};
ghost use Rattle.tables.specs.Tabled.{task_in, tabled};

use crate::rows::Rows;
use crate::rows::renaming::Renaming;
use crate::table::Table;
use acceptance::accept;
use detours::edges::is_free;
use reductions::{Generalise, Merge, Step};
use std::array;
use tasks::{Cause, Refusal};

impl Rows {
    // Two values of a variable made one.
    fn merge(&mut self, step: Merge)
        requires { accepted (tabled self.old) (merge_of step) ≡ true }
        ensures { tabled self.new ≡ applied (tabled self.old) (merge_of step) }
    {
        self.rename(Renaming {
            variable: step.variable,
            from: step.from,
            to: step.to,
        });
        self.retire_action(step.forward);
        self.retire_action(step.back);
    }

    // The first action comes to stand for its twin too.
    fn generalise(&mut self, step: Generalise)
        requires { accepted (tabled self.old) (generalise_of step) ≡ true }
        ensures { tabled self.new ≡ applied (tabled self.old) (generalise_of step) }
    {
        self.drop_precondition(step.action, step.variable);
        self.retire_action(step.twin);
    }

    // A variable retired with its free actions, told beforehand: what is free depends on the live variables.
    fn abstract_variable(&mut self, variable: u8, free: &[bool; 512])
        requires in_range { variable < 32 }
        requires free { (a : ℕ) → slice_index_or free.now a false ≡ free_in (task_in self.old) variable a }
        ensures { tabled self.new ≡ applied (tabled self.old) (abstract_step variable) }
    {
        self.retire_actions(free);
        self.retire_variable(variable);
    }
}

impl Table {
    // Which actions are free for a variable.
    fn free_actions(&self, variable: u8) -> [bool; 512]
        ensures { (a : ℕ) → slice_index_or result a false ≡ free_in (task_in self.now.rows) variable a }
    {
        array::from_fn(|a| is_free(self, variable, a as u16))
    }

    // An accepted step, in place.
    fn apply(&mut self, step: &Step)
        requires { accepted (tabled self.old.rows) (step_of step.now) ≡ true }
        ensures { tabled self.new.rows ≡ applied (tabled self.old.rows) (step_of step.now) }
    {
        // a step is plain data, of which a table is to be kept: so its kind is matched
        match *step {
            Step::Merge(step) => self.rows.merge(step),
            Step::Generalise(step) => self.rows.generalise(step),
            Step::Variable { variable } => self.rows.retire_variable(variable),
            Step::Action { action, .. } => self.rows.retire_action(action),
            Step::Abstract { variable } => {
                let free = self.free_actions(variable);
                self.rows.abstract_variable(variable, &free);
            }
        }
    }

    // Takes a step where so many stand: refused where 128 do, then as the step is. A refused step leaves the table alone.
    pub fn reduce(&mut self, standing: usize, step: &Step) -> Result<(), Refusal>
        ensures answer { result ≡ refused_by standing (tabled self.old.rows) (step_of step.now) }
        ensures table { tabled self.new.rows ≡ reduced_by standing (tabled self.old.rows) (step_of step.now) }
    {
        if standing >= 128 {
            return Err(Cause::PileFull.at(0));
        }
        accept(self, step)?;
        self.apply(step);
        Ok(())
    }
}
