// The worked examples.
#![tactic(auto)]

ghost use Rattle.std.specs.Prelude.{◌≡◌};
ghost use Rattle.small_pools.specs.Pools.{file, SmallPools};

fn bytes() -> [u8; 36]
    ensures { result ≡ file }
{
    *b"\x10\x80\x30\x00\
        \x04\x00\x00\x04\x08\x20\
        \x00\x03\x04\x10\x00\x00\x00\x20\
        \x00\x03\x04\x10\x00\x20\x00\x00\
        \x00\x02\x08\x10\x00\x20\x08\x00\x08\x20"
}

// The worked file. With it stands the table of what the definitions say of it and of the worked floor.
pub fn worked_file() -> [u8; 36]
    ensures result { result ≡ file }
    ensures examples { SmallPools }
{
    bytes()
}
