// A hex capture as a source: text in pairs, two hexadecimal digits for a byte, `--` for a lost cell.
// Pairs past the 65,535th are checked, but are no cells.
ghost use Rattle.std.specs.Prelude.{◌≡◌};
ghost use Rattle.cells.specs.Captured.{capture_answer, capture_cells, bad_from, opened, OpensBy};
ghost use Rattle.cells.specs.Laws.{capture_lawful};

use crate::cell::{CaptureFault, Mark, ReadFault};
use crate::hex::{Pair, read_pair};
use crate::source::Source;

#[derive(Clone, Copy)]
pub struct Capture<'a> {
    text: &'a [u8],
}

// The place of the first pair that is bad or cut.
fn first_bad(text: &[u8]) -> Option<usize>
    ensures { result ≡ bad_from 0 text.now }
{
    // By number: with `chunks` and `position` opening a capture took up to twice as long.
    for i in 0..text.len() / 2 {
        if read_pair(text[2 * i], text[2 * i + 1]).is_none() {
            return Some(2 * i);
        }
    }
    if text.len() % 2 == 1 {
        return Some(text.len() - 1);
    }
    None
}

impl<'a> Capture<'a> {
    #[tactic(auto, using(crate::proofs::Faults::first_fault))]
    pub fn open(text: &'a [u8]) -> Result<Self, CaptureFault>
        ensures told { capture_answer result ≡ opened text.now }
        ensures faults { OpensBy text.now result }
    {
        match first_bad(text) {
            None => Ok(Capture { text }),
            Some(place) => Err(CaptureFault { place }),
        }
    }
}

impl<'a> Source for Capture<'a> {
    ghost cells = { λ s. capture_cells s.text.now };

    ghost lawful = { λ s. capture_lawful s.text.now };

    #[tactic(auto, using(crate::specs::Laws::capture_length))]
    fn len(&self) -> usize {
        (self.text.len() / 2).min(65535)
    }

    #[tactic(auto, using(crate::specs::Laws::capture_length))]
    fn read(&self, k: usize) -> Result<u8, ReadFault> {
        if k >= self.len() {
            return Err(ReadFault::PastEnd(k));
        }
        match read_pair(self.text[2 * k], self.text[2 * k + 1]) {
            Some(Pair::Digits(b)) => Ok(b),
            // an opened capture has no bad pair
            Some(Pair::Dashes) | None => Err(ReadFault::LostCell(Mark {
                place: k as u16,
                layers: 0,
            })),
        }
    }
}
