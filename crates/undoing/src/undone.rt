// What came of undoing a step.

// How long the list is then, and the total of the actions that were inserted.
#[derive(Clone, Copy)]
pub struct Undone<S: Copy> {
    pub length: usize,
    pub inserted: S,
}
