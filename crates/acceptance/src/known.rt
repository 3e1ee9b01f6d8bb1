// The values that are known while a list of actions stands in for another action.
ghost use Rattle.std.specs.Prelude.{◌≡◌, length};

mod learning;

// The value of each variable, where it is known.
#[derive(Drop)]
pub struct Known {
    values: [Option<u8>; 32],
    ghost long: { length values ≡ 32 },
}
