// The checks of a packed file, front to back. Each answers the first thing that is wrong, at the first byte of its record.
ghost use Rattle.std.specs.Prelude.{◌≡◌, ◌+◌, ◌*◌, ◌^◌, ◌<◌, ◌≤◌, length, ltb, if◌then◌else◌, Some, None, MatchResult};
ghost use Rattle.tasks.specs.Bounds.{first_some};
ghost use Rattle.tasks.specs.Refusals.{refuse};
ghost use Rattle.packed.specs.Decoding.{header as header_of, variables as variables_of, actions as actions_of, variable_at, past_action, header_refusal, variable_refusal, fact_refusal, facts_refusal, action_refusal, refusal, opened};
ghost use Rattle.packed.specs.Packing.{PackingDecides};
ghost use Rattle.packed.specs.Checks.{unless, Placed};

use crate::records::{Action, Fact, Header, Variable};
use tasks::{Cause, Refusal};

// The first record, and the length of the whole.
fn check_header(bytes: &[u8]) -> Result<Header, Refusal>
    ensures { result ≡ unless (header_refusal bytes.now) (record { bits = header_of bytes.now }) }
{
    if bytes.len() > 65536 {
        return Err(Cause::FileLength.at(0));
    }
    let [first, second, third, fourth, _rest @ ..] = bytes else {
        return Err(Cause::FileLength.at(0));
    };
    let header = Header {
        bits: u32::from_be_bytes([*first, *second, *third, *fourth]),
    };
    if header.layout() != 1 {
        return Err(Cause::Layout.at(0));
    }
    if header.variables() > 32 || header.actions() > 512 {
        return Err(Cause::Counts.at(0));
    }
    if header.spare() != 0 {
        return Err(Cause::SpareBit.at(0));
    }
    Ok(header)
}

// The record of a variable: whole, without a spare bit, its values in range.
fn check_variable(bytes: &[u8], variable: u8) -> Result<(), Refusal>
    ensures { result ≡ unless (variable_refusal bytes.now variable) tt }
{
    let place = Variable::place(variable);
    if bytes.len() < place + 3 {
        return Err(Cause::CutShort.at(place));
    }
    let record = Variable::at(bytes, place);
    if record.spare() != 0 {
        return Err(Cause::SpareBit.at(place));
    }
    if !record.values_fit() {
        return Err(Cause::ValueRange.at(place));
    }
    Ok(())
}

// The records of the variables, which the header counts, the lowest that is wrong first.
fn check_variables(bytes: &[u8], count: u8) -> Result<(), Refusal>
    ensures { result ≡ unless (first_some count (variable_refusal bytes.now)) tt }
{
    for variable in 0..count {
        check_variable(bytes, variable)?;
    }
    Ok(())
}

// That no byte is left over from a place on.
fn check_end(bytes: &[u8], place: usize) -> Result<(), Refusal>
    ensures { result ≡ unless (if ltb place (length bytes.now) then refuse Cause.LeftOver place else None) tt }
{
    if place < bytes.len() {
        return Err(Cause::LeftOver.at(place));
    }
    Ok(())
}

// The bytes of a file whose first record and variables are accepted.
#[derive(Clone, Copy)]
struct Front<'a> {
    bytes: &'a [u8],
    header: Header,
    ghost read: { header.bits ≡ header_of bytes.now },
    ghost first: { header_refusal bytes.now ≡ None },
    ghost variables: { first_some (variables_of bytes.now) (variable_refusal bytes.now) ≡ None },
    ghost short: { length bytes.now ≤ 65536 },
    ghost few: { actions_of bytes.now ≤ 512 },
    ghost inside: { variable_at bytes.now (variables_of bytes.now) ≤ length bytes.now },
}

impl Front<'_> {
    // The first record and the variables.
    fn check(bytes: &[u8]) -> Result<Front<'_>, Refusal>
        ensures { MatchResult result (λ f. f.bytes.now ≡ bytes.now) (λ e. refusal bytes.now ≡ Some e) }
    {
        let header = check_header(bytes)?;
        check_variables(bytes, header.variables())?;
        Ok(Front { bytes, header })
    }

    // Fact `index` of the facts that begin at `list`.
    fn check_fact(&self, list: usize, index: u8) -> Result<(), Refusal>
        requires { list < 2 ^ 32 }
        ensures { result ≡ unless (fact_refusal self.now.bytes.now list index) tt }
    {
        let place = list + 2 * usize::from(index);
        if self.bytes.len() < place + 2 {
            return Err(Cause::CutShort.at(place));
        }
        let fact = Fact::at(self.bytes, place);
        if fact.spare() != 0 {
            return Err(Cause::SpareBit.at(place));
        }
        let ascends = index == 0 || Fact::at(self.bytes, place - 2).variable() < fact.variable();
        if fact.variable() >= self.header.variables() || !ascends {
            return Err(Cause::VariableOrder.at(place));
        }
        let variable = Variable::at(self.bytes, Variable::place(fact.variable()));
        if fact.value() >= variable.size() {
            return Err(Cause::ValueRange.at(place));
        }
        Ok(())
    }

    // So many facts from a place on, as their action counts them.
    fn check_facts(&self, list: usize, count: u8) -> Result<(), Refusal>
        requires { list < 2 ^ 32 }
        ensures { result ≡ unless (facts_refusal self.now.bytes.now list count) tt }
    {
        for index in 0..count {
            self.check_fact(list, index)?;
        }
        Ok(())
    }

    // The action whose record begins at a place. Answers where the next record begins.
    fn check_action(&self, place: usize) -> Result<usize, Refusal>
        requires { place ≤ length self.now.bytes.now }
        ensures { result ≡ unless (action_refusal self.now.bytes.now place) (past_action self.now.bytes.now place) }
    {
        if self.bytes.len() < place + 4 {
            return Err(Cause::CutShort.at(place));
        }
        let action = Action::at(self.bytes, place);
        if action.spare() != 0 {
            return Err(Cause::SpareBit.at(place));
        }
        let effects = place + 4 + 2 * usize::from(action.preconditions());
        self.check_facts(place + 4, action.preconditions())?;
        self.check_facts(effects, action.effects())?;
        Ok(effects + 2 * usize::from(action.effects()))
    }

    // The actions, one behind the other, and that nothing is left over. Answers where their records begin, in a plain
    // array, a form that is asked for (docs/DECISIONS.md).
    fn check_actions(&self) -> Result<[u32; 512], Refusal>
        ensures { MatchResult result (λ offsets. (refusal self.now.bytes.now ≡ None) × Placed self.now.bytes.now offsets) (λ e. refusal self.now.bytes.now ≡ Some e) }
    {
        let mut offsets = [0; 512];
        let mut place = Variable::place(self.header.variables());
        for action in 0..self.header.actions() {
            offsets[usize::from(action)] = place as u32;
            place = self.check_action(place)?;
        }
        check_end(self.bytes, place)?;
        Ok(offsets)
    }
}

// The whole file. Answers where the actions' records begin.
pub fn check(bytes: &[u8]) -> Result<[u32; 512], Refusal>
    ensures result { MatchResult result (λ offsets. (refusal bytes.now ≡ None) × Placed bytes.now offsets) (λ e. refusal bytes.now ≡ Some e) }
    ensures law { PackingDecides bytes.now (opened bytes.now) }
{
    Front::check(bytes)?.check_actions()
}
