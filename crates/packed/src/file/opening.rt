// Opening a packed file.
ghost use Rattle.std.specs.Prelude.{◌≡◌};
ghost use Rattle.packed.specs.Decoding.{opened};
ghost use Rattle.packed.specs.Packing.{PackingDecides};
ghost use Rattle.packed.specs.Files.{task_of};

use super::File;
use crate::checks;
use tasks::Refusal;

impl File {
    // The file of these bytes, or the first thing that is wrong with them.
    pub fn open(bytes: Vec<u8>) -> Result<File, Refusal>
        ensures result { task_of result ≡ opened bytes.items }
        ensures law { PackingDecides bytes.items (task_of result) }
    {
        let offsets = checks::check(&bytes)?;
        Ok(File { bytes, offsets })
    }
}
