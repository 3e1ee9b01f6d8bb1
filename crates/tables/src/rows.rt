// The answers of a task, row by row. Of what is retired nothing is kept but the size of a variable, so that to retire is one write.
ghost use Rattle.std.specs.Prelude.{◌≡◌};

mod changing;
mod copying;
pub(crate) mod renaming;

// What is said of a live variable: which of its values are live, the initial one and the goal.
#[derive(Clone, Copy)]
pub struct Domain {
    pub(crate) values: [bool; 64],
    pub(crate) initial: u8,
    pub(crate) goal: Option<u8>,
}

// How many values a variable has, live and retired, and what is said of it while it is live.
#[derive(Clone, Copy)]
pub struct Variable {
    pub(crate) size: u8,
    pub(crate) live: Option<Domain>,
}

// What is said of a live action.
#[derive(Clone, Copy)]
pub struct Action {
    pub(crate) price: u16,
    pub(crate) preconditions: [Option<u8>; 32],
    pub(crate) effects: [Option<u8>; 32],
}

// A row for each variable and each action that there can be, and how many there are.
#[derive(Clone, Copy)]
pub struct Rows {
    pub(crate) variable_count: u8,
    pub(crate) action_count: u16,
    pub(crate) variables: [Variable; 32],
    pub(crate) actions: [Option<Action>; 512],
}
