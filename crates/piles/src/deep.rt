// A source of another kind: one lost cell, whose mark has come through many layers.
ghost use Rattle.std.specs.Prelude.{◌≡◌, ◌≤◌};
ghost use Rattle.piles.specs.Worn.{worn, worn_lawful};

use cells::cell::{Mark, ReadFault};
use cells::source::Source;

#[derive(Drop)]
pub struct Worn {
    layers: u8,
    ghost few: { layers ≤ 255 },
}

impl Worn {
    pub(crate) fn new(layers: u8) -> Worn
        ensures { result.layers ≡ layers }
    {
        Worn { layers }
    }
}

impl Source for Worn {
    ghost cells = { λ s. worn s.layers };

    ghost lawful = { λ s. worn_lawful s.layers s.few };

    fn len(&self) -> usize {
        1
    }

    fn read(&self, k: usize) -> Result<u8, ReadFault> {
        if k == 0 {
            Err(ReadFault::LostCell(Mark {
                place: 0,
                layers: self.layers,
            }))
        } else {
            Err(ReadFault::PastEnd(k))
        }
    }
}
