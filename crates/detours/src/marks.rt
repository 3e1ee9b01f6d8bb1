// What is known of each value while a detour is searched, beside its total.
ghost use Rattle.std.specs.Prelude.{◌≡◌};
ghost use Rattle.detours.specs.Marks.{origin_of, settled_of};

// The action that gave a value its total, and the value that it led from. Where the detour starts, neither is ever read.
#[derive(Clone, Copy, Default)]
pub struct Origin {
    pub via: u16,
    pub from: u8,
}

// A value has a total once it is reached; it is settled when that is the least.
#[derive(Clone, Copy)]
pub enum Mark {
    Unreached,
    Open(Origin),
    Settled(Origin),
}

impl Mark {
    // The blank one where no action led.
    pub fn origin(self) -> Origin
        ensures { result ≡ origin_of self }
    {
        match self {
            Mark::Unreached => Origin::default(),
            Mark::Open(origin) | Mark::Settled(origin) => origin,
        }
    }

    pub fn settled(self) -> Mark
        ensures { result ≡ settled_of self }
    {
        match self {
            Mark::Open(origin) => Mark::Settled(origin),
            other => other,
        }
    }
}
