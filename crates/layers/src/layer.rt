// A layer over one source: its cells are some of those below, in another order.
ghost use Rattle.std.specs.Prelude.{◌≡◌, ℕ, List, ◌++◌, length};
ghost use Rattle.cells.specs.declared.cell.Cell.{Cell};
ghost use Rattle.cells.specs.Cells.{Lawful, NoneLost};
ghost use Rattle.layers.specs.Layers.{Placed};

use crate::answers::passed_up;
use cells::cell::ReadFault;
use cells::source::{Source, Store};

/// Which of the cells below a layer has, and where.
pub trait Placing {
    // what the layer means over these cells
    ghost layer: { Self → List Cell → List Cell };

    // how many cells it has over n
    ghost count: { Self → ℕ → ℕ };

    // which of the cells below it leaves out
    ghost left_out: { Self → List Cell → List Cell };

    // its numbers
    ghost numbers: { Self → List ℕ };

    // what each `impl` must prove
    ghost counted: { (p : Self) (below : List Cell) → length (layer p below) ≡ count p (length below) };

    ghost lawful: { (p : Self) (below : List Cell) → Lawful below → Lawful (layer p below) };

    ghost whole: { (p : Self) (below : List Cell) → NoneLost below → NoneLost (layer p below) };

    /// How many cells the layer has over n.
    fn len(&self, n: usize) -> usize
        ensures { result ≡ count self.now n };

    /// The place below, among n cells, of cell k.
    fn place(&self, n: usize, k: usize) -> Option<usize>
        ensures { (below : List Cell) → length below ≡ n → Placed (layer self.now) (left_out self.now) below k result };
}

#[derive(Drop)]
pub struct Layer<S, P> {
    below: S,
    placing: P,
}

impl<S: Source, P: Placing> Layer<S, P> {
    pub(crate) fn over(below: S, placing: P) -> Self
        ensures { result ≡ record { below = below; placing = placing } }
    {
        Layer { below, placing }
    }
}

impl<S: Source, P: Placing> Source for Layer<S, P> {
    ghost cells = { λ s. P.layer s.placing (S.Source.cells s.below) };

    ghost lawful = { λ s. P.lawful s.placing (S.Source.cells s.below) (S.Source.lawful s.below) };

    fn len(&self) -> usize {
        self.placing.len(self.below.len())
    }

    fn read(&self, k: usize) -> Result<u8, ReadFault> {
        match self.placing.place(self.below.len(), k) {
            Some(at) => passed_up(k, self.below.read(at)),
            None => Err(ReadFault::PastEnd(k)),
        }
    }
}

impl<S: Store, P: Placing> Store for Layer<S, P> {
    ghost spares = { λ s. P.left_out s.placing (S.Source.cells s.below) ++ S.Store.spares s.below };

    ghost fixed = { λ s. P.numbers s.placing ++ S.Store.fixed s.below };

    ghost whole = { λ s. P.whole s.placing (S.Source.cells s.below) (S.Store.whole s.below) };

    fn write(&mut self, k: usize, b: u8) -> Result<u8, ReadFault> {
        match self.placing.place(self.below.len(), k) {
            Some(at) => passed_up(k, self.below.write(at, b)),
            None => Err(ReadFault::PastEnd(k)),
        }
    }
}
