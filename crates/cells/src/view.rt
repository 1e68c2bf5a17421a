// Handed-in bytes that are only read, as a source. Bytes past the 65,535th are no part of its message.
ghost use Rattle.std.specs.Prelude.{◌≡◌};
ghost use Rattle.cells.specs.Cells.{byte_cells};
ghost use Rattle.cells.specs.Laws.{bytes_lawful};

use crate::cell::ReadFault;
use crate::source::Source;

#[derive(Clone, Copy)]
pub struct View<'a> {
    bytes: &'a [u8],
}

impl<'a> View<'a> {
    pub fn new(bytes: &'a [u8]) -> Self
        ensures { result.bytes.now ≡ bytes.now }
    {
        View { bytes }
    }
}

impl<'a> Source for View<'a> {
    ghost cells = { λ s. byte_cells s.bytes.now };

    ghost lawful = { λ s. bytes_lawful s.bytes.now };

    #[tactic(auto, using(crate::specs::Laws::bytes_length))]
    fn len(&self) -> usize {
        self.bytes.len().min(65535)
    }

    fn read(&self, k: usize) -> Result<u8, ReadFault> {
        if k >= self.len() {
            return Err(ReadFault::PastEnd(k));
        }
        Ok(self.bytes[k])
    }
}
