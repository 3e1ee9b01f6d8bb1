// The free actions of a variable as the edges of a graph over its values.
ghost use Rattle.std.specs.Prelude.{◌≡◌};
ghost use Rattle.tasks.specs.Plans.{agrees};

mod gathering;

use arrayvec::ArrayVec;
pub use gathering::{gather, is_free};

// A free action: the value it leads from, or every value where there is none, the one it leads to, and its price.
#[derive(Clone, Copy, Default)]
pub struct Edge {
    pub action: u16,
    pub from: Option<u8>,
    pub to: u8,
    pub price: u16,
}

// At most 512 of them.
#[derive(Drop)]
pub struct Edges {
    list: ArrayVec<Edge, 512>,
}

impl Edge {
    pub fn leads_from(&self, value: u8) -> bool
        ensures { result ≡ agrees self.now.from value }
    {
        self.from.is_none_or(|from| value == from)
    }
}
