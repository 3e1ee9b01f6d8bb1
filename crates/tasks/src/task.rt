// What can be asked of a planning task. Asking changes nothing, and every number has an answer.
ghost use Rattle.std.specs.Prelude.{◌≡◌, ℕ};
ghost use Rattle.tasks.specs.Task.{Task as Meaning, Lawful, priced};

pub trait Task {
    // the table of the answers
    ghost meant: { Self → Meaning };

    // How many variables there are, live and retired: 0 to 32.
    fn variables(&self) -> u8
        ensures { result ≡ (meant self.now).vars };

    // How many actions there are, live and retired: 0 to 512.
    fn actions(&self) -> u16
        ensures { result ≡ (meant self.now).acts };

    // How many values a variable has, live and retired: 1 to 64, and 0 out of range.
    fn size(&self, variable: u8) -> u8
        ensures { result ≡ (meant self.now).size variable };

    fn variable_live(&self, variable: u8) -> bool
        ensures { result ≡ (meant self.now).var_live variable };

    fn value_live(&self, variable: u8, value: u8) -> bool
        ensures { result ≡ (meant self.now).val_live variable value };

    fn action_live(&self, action: u16) -> bool
        ensures { result ≡ (meant self.now).act_live action };

    // The value that an action requires of a variable.
    fn precondition(&self, action: u16, variable: u8) -> Option<u8>
        ensures { result ≡ (meant self.now).pre action variable };

    // The value that an action sets a variable to.
    fn effect(&self, action: u16, variable: u8) -> Option<u8>
        ensures { result ≡ (meant self.now).eff action variable };

    fn initial(&self, variable: u8) -> u8
        ensures { result ≡ (meant self.now).init variable };

    fn goal(&self, variable: u8) -> Option<u8>
        ensures { result ≡ (meant self.now).goal variable };

    ghost lawful: { (t : Self) → Lawful (meant t) };
}

// A task whose actions have a price.
pub trait Priced: Task {
    // the prices, of which those of actions that are not live do not count
    ghost tariff: { Self → ℕ → ℕ };

    // 0 to 65,535, and 0 for an action that is not live.
    fn price(&self, action: u16) -> u16
        ensures { result ≡ (priced (Self.Task.meant self.now) (tariff self.now)).price action };
}
