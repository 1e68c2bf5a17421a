// What a source and a store are.
ghost use Rattle.std.specs.Prelude.{◌≡◌, ℕ, List, length, slice_set};
ghost use Rattle.cells.specs.declared.cell.Cell.{Cell};
ghost use Rattle.cells.specs.declared.cell.Cell.TheVariants.{Byte};
ghost use Rattle.cells.specs.Cells.{Answers, Lawful, NoneLost};

use crate::cell::ReadFault;

pub trait Source {
    // the message: its cells in order
    ghost cells: { Self → List Cell };

    // what each `impl` must prove of every message
    ghost lawful: { (s : Self) → Lawful (cells s) };

    /// The number of cells.
    fn len(&self) -> usize
        ensures { result ≡ length (cells self.now) };

    /// The byte at k, or why there is none.
    fn read(&self, k: usize) -> Result<u8, ReadFault>
        ensures { Answers (cells self.now) k result };
}

pub trait Store: Source {
    // what a store stands on and its message leaves out
    ghost spares: { Self → List Cell };

    // the ghost names of the memory lent to it, and the numbers of its layers
    ghost fixed: { Self → List ℕ };

    /// Makes cell k the byte b, and answers the byte that stood there. Past the end it refuses,
    /// and `slice_set` then leaves the list as it is.
    fn write(&mut self, k: usize, b: u8) -> Result<u8, ReadFault>
        ensures whole { NoneLost (Self.cells self.old) }
        ensures answer { Answers (Self.cells self.old) k result }
        ensures after { Self.cells self.new ≡ slice_set (Self.cells self.old) k (Byte b) }
        ensures spares { spares self.new ≡ spares self.old }
        ensures fixed { fixed self.new ≡ fixed self.old };

    // what each `impl` must prove: no cell is lost. `write` promises it to whoever writes; a layer needs it
    // also of a store that it does not write to
    ghost whole: { (s : Self) → NoneLost (Self.cells s) };
}
