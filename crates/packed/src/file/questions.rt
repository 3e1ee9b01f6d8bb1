// What a packed file answers, as a task and as a priced one.
ghost use Rattle.std.specs.Prelude.{◌≡◌, ◌+◌, ◌*◌, ◌≤◌, ltb, IfSome, if◌then◌else◌, Some, None, vec_len};
ghost use Rattle.packed.specs.Decoding.{header as header_of, variables as variables_of, actions as actions_of, variable_record, action_record, action_at, past_action, looked_up, decoded_task, tariff as tariff_of};
ghost use Rattle.packed.specs.Files.{contents};
ghost use Rattle.packed.specs.Accepted.{accepted_of};
ghost use Rattle.packed.specs.LawfulFile.{lawful_decoded};

use super::File;
use crate::records::{Action, Fact, Header, Variable};
use tasks::{Priced, Task};

impl File {
    fn header(&self) -> Header
        ensures { result.bits ≡ header_of (contents self.now) }
    {
        Header::of(&self.bytes)
    }

    // The record of a variable, if there is one of that number.
    fn variable(&self, variable: u8) -> Option<Variable>
        ensures { result ≡ (if ltb variable (variables_of (contents self.now)) then Some (record { bits = variable_record (contents self.now) variable }) else None) }
    {
        let place = Variable::place(variable);
        (variable < self.header().variables()).then(|| Variable::at(&self.bytes, place))
    }

    // Where the record of an action begins, if there is one of that number.
    fn place(&self, action: u16) -> Option<usize>
        ensures value { result ≡ (if ltb action (actions_of (contents self.now)) then Some (action_at (contents self.now) action) else None) }
        ensures inside { IfSome result (λ p. past_action (contents self.now) p ≤ vec_len self.now.bytes) }
    {
        let offset = self.offsets.get(usize::from(action)).copied()?;
        (action < self.header().actions()).then_some(offset as usize)
    }

    // The record of an action, if there is one of that number.
    fn record(&self, action: u16) -> Option<Action>
        ensures { result ≡ (if ltb action (actions_of (contents self.now)) then Some (record { bits = action_record (contents self.now) action }) else None) }
    {
        let place = self.place(action)?;
        Some(Action::at(&self.bytes, place))
    }

    // The value that so many facts, from a place on, give to a variable.
    fn look_up(&self, place: usize, count: u8, variable: u8) -> Option<u8>
        requires { place + 2 * count ≤ vec_len self.now.bytes }
        ensures { result ≡ looked_up (contents self.now) place count variable }
    {
        (0..count)
            .map(|index| Fact::at(&self.bytes, place + 2 * usize::from(index)))
            .find(|fact| fact.variable() == variable)
            .map(|fact| fact.value())
    }
}

impl Task for File {
    ghost meant = { λ f. decoded_task (contents f) };

    ghost lawful = { λ f. lawful_decoded (contents f) (accepted_of (contents f) f.accepted) };

    fn variables(&self) -> u8 {
        self.header().variables()
    }

    fn actions(&self) -> u16 {
        self.header().actions()
    }

    fn size(&self, variable: u8) -> u8 {
        self.variable(variable).map_or(0, |record| record.size())
    }

    fn variable_live(&self, variable: u8) -> bool {
        variable < self.variables()
    }

    fn value_live(&self, variable: u8, value: u8) -> bool {
        value < self.size(variable)
    }

    fn action_live(&self, action: u16) -> bool {
        action < self.actions()
    }

    fn precondition(&self, action: u16, variable: u8) -> Option<u8> {
        let place = self.place(action)?;
        let record = Action::at(&self.bytes, place);
        self.look_up(place + 4, record.preconditions(), variable)
    }

    fn effect(&self, action: u16, variable: u8) -> Option<u8> {
        let place = self.place(action)?;
        let record = Action::at(&self.bytes, place);
        let effects = place + 4 + 2 * usize::from(record.preconditions());
        self.look_up(effects, record.effects(), variable)
    }

    fn initial(&self, variable: u8) -> u8 {
        self.variable(variable).map_or(0, |record| record.initial())
    }

    fn goal(&self, variable: u8) -> Option<u8> {
        self.variable(variable)?.goal()
    }
}

impl Priced for File {
    ghost tariff = { λ f. tariff_of (contents f) };

    fn price(&self, action: u16) -> u16 {
        self.record(action).map_or(0, |record| record.price())
    }
}
