// Handed-in 16-bit words as a store, the high byte of each word first. Words past the 32,767th are
// no part of its message.
ghost use Rattle.cells.specs.Cells.{word_bytes, word_cells, word_spares};
ghost use Rattle.cells.specs.Laws.{word_laws};

use crate::lent::{Lent, Unit};

pub type Words<'a> = Lent<'a, u16>;

impl Unit for u16 {
    ghost bytes = { word_bytes };

    ghost WIDTH = { 2 };

    const WIDTH: usize = 2;

    ghost cells = { word_cells };

    ghost spares = { word_spares };

    ghost laws = { word_laws };

    // By arithmetic: a byte at a variable place of an array takes half as much time again.
    fn byte(self, i: usize) -> u8 {
        if i == 0 {
            (self / 256) as u8
        } else {
            (self % 256) as u8
        }
    }

    fn with_byte(self, i: usize, b: u8) -> u16 {
        if i == 0 {
            u16::from(b) * 256 + self % 256
        } else {
            self / 256 * 256 + u16::from(b)
        }
    }
}
