// Handed-in bytes as a store. Bytes past the 65,535th are no part of its message.
ghost use Rattle.std.specs.Prelude.{[], ◌∷◌};
ghost use Rattle.cells.specs.Cells.{byte_cells, byte_spares};
ghost use Rattle.cells.specs.Laws.{byte_laws};

use crate::lent::{Lent, Unit};

pub type Bytes<'a> = Lent<'a, u8>;

impl Unit for u8 {
    ghost bytes = { λ b. b ∷ [] };

    ghost WIDTH = { 1 };

    const WIDTH: usize = 1;

    ghost cells = { byte_cells };

    ghost spares = { byte_spares };

    ghost laws = { byte_laws };

    fn byte(self, _i: usize) -> u8 {
        self
    }

    fn with_byte(self, _i: usize, b: u8) -> u8 {
        b
    }
}
