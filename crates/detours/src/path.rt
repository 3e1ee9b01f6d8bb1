// A detour that was found.
ghost use Rattle.std.specs.Prelude.{◌≡◌, [], ◌∷◌};

use arrayvec::ArrayVec;

// A list of at most 64 actions, in the order in which they run, and what it costs.
#[derive(Drop)]
pub struct Path<S: Copy> {
    actions: ArrayVec<u16, 64>,
    total: S,
}

impl<S: Copy> Path<S> {
    ghost use Rattle.detours.specs.Paths.{found_in};

    pub(crate) fn new(actions: ArrayVec<u16, 64>, total: S) -> Path<S>
        ensures { found_in result ≡ record { actions = actions.items; total = total } }
    {
        Path { actions, total }
    }

    // No action, at the total given.
    pub fn empty(total: S) -> Path<S>
        ensures { found_in result ≡ record { actions = []; total = total } }
    {
        Path::new(ArrayVec::new(), total)
    }

    // One action, at the total given.
    pub fn single(action: u16, total: S) -> Path<S>
        ensures { found_in result ≡ record { actions = action ∷ []; total = total } }
    {
        let mut actions = ArrayVec::new();
        actions.push(action);
        Path::new(actions, total)
    }

    // In the order in which they run.
    pub fn actions(&self) -> &[u16]
        ensures { result.now ≡ (found_in self.now).actions }
    {
        self.actions.as_slice()
    }

    pub fn total(&self) -> S
        ensures { result ≡ (found_in self.now).total }
    {
        self.total
    }
}
