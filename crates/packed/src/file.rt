// A packed file that was opened.
ghost use Rattle.std.specs.Prelude.{◌≡◌, ℕ, ◌<◌, false, is_some, slice_index};
ghost use Rattle.packed.specs.Decoding.{refusal, actions, action_at};

pub mod opening;
pub mod questions;

// The bytes, which are accepted, and where the record of each action begins.
#[derive(Drop)]
pub struct File {
    bytes: Vec<u8>,
    offsets: [u32; 512],
    ghost accepted: { is_some (refusal bytes.items) ≡ false },
    ghost placed: { (a : ℕ) → a < actions bytes.items → slice_index offsets a ≡ action_at bytes.items a },
}
