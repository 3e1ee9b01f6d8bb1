// Writing a list into a buffer, one piece behind another.
ghost use Rattle.std.specs.Prelude.{◌≡◌, ◌≤◌, [], ◌∷◌, length};

// The buffer is full.
#[derive(Clone, Copy)]
pub struct Full;

// The front of the buffer is written.
#[derive(Drop)]
pub struct Writer<'a> {
    buffer: &'a mut [u16],
    written: usize,
    ghost within: { written ≤ length buffer.now },
}

impl<'a> Writer<'a> {
    ghost use Rattle.undoing.specs.Writing.{Writes};

    pub fn new(buffer: &'a mut [u16]) -> Self
        ensures same_reference { result.buffer.ghost_name ≡ buffer.entry.ghost_name }
        ensures blank { (result.buffer.now ≡ buffer.old) × (result.written ≡ 0) }
    {
        Writer { buffer, written: 0 }
    }

    // How many actions are written.
    pub fn written(&self) -> usize
        ensures { result ≡ self.now.written }
    {
        self.written
    }

    // One action more.
    pub fn push(&mut self, action: u16) -> Result<(), Full>
        ensures { Writes self.old (action ∷ []) self.new result }
    {
        if self.written == self.buffer.len() {
            return Err(Full);
        }
        self.buffer[self.written] = action;
        self.written += 1;
        Ok(())
    }

    // A list more. Where it does not fit, what fits of it is written.
    #[tactic(auto, using(crate::proofs::WritingOn::wrote_err, crate::proofs::WritingOn::item_written, crate::proofs::WritingOn::item_fails, crate::proofs::WritingOn::items_end))]
    pub fn push_all(&mut self, list: &[u16]) -> Result<(), Full>
        ensures { Writes self.old list.now self.new result }
    {
        for action in list {
            self.push(*action)?;
        }
        Ok(())
    }
}
