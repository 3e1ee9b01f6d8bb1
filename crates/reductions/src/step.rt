// A step as it is written: its numbers, and for an action step a list.

// `forward` leads the variable from `from` to `to` and `back` leads it back: every mention of `from` becomes one of `to`.
#[derive(Clone, Copy)]
pub struct Merge {
    pub variable: u8,
    pub from: u8,
    pub to: u8,
    pub forward: u16,
    pub back: u16,
}

// The two actions differ only in the one of two values of the variable that they require; the first comes to stand for both.
#[derive(Clone, Copy)]
pub struct Generalise {
    pub variable: u8,
    pub action: u16,
    pub twin: u16,
}

// A step by the numbers that it names. The list of an action step is borrowed.
#[derive(Clone, Copy)]
pub enum Step<'a> {
    Merge(Merge),
    Generalise(Generalise),
    // The variable has one value left.
    Variable { variable: u8 },
    // The action does no more than the list does.
    Action { action: u16, list: &'a [u16] },
    // Free actions lead the variable from every value to every other.
    Abstract { variable: u8 },
}
