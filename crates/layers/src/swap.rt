// A swap: the two cells of each pair exchanged. The last of an odd number stays.
ghost use Rattle.std.specs.Prelude.{◌≡◌, ◌<◌, []};
ghost use Rattle.layers.specs.Layers.{swapped, Partner};
ghost use Rattle.layers.specs.Laws.{swapped_length, swapped_lawful, swapped_whole};

use crate::layer::{Layer, Placing};
use cells::source::Source;

pub type Swap<S> = Layer<S, Exchange>;

#[derive(Drop)]
pub struct Exchange;

impl<S: Source> Layer<S, Exchange> {
    pub fn new(below: S) -> Self
        ensures { result ≡ record { below = below; placing = record {} } }
    {
        Layer::over(below, Exchange)
    }
}

impl Placing for Exchange {
    ghost layer = { λ p. swapped };

    ghost count = { λ p n. n };

    ghost left_out = { λ p cs. [] };

    ghost numbers = { λ p. [] };

    ghost counted = { λ p. swapped_length };

    ghost lawful = { λ p. swapped_lawful };

    ghost whole = { λ p. swapped_whole };

    fn len(&self, n: usize) -> usize {
        n
    }

    #[tactic(auto, using(crate::specs::Laws::swapped_length, crate::proofs::Swaps::swap_stands))]
    fn place(&self, n: usize, k: usize) -> Option<usize> {
        if k < n { Some(partner(n, k)) } else { None }
    }
}

// The place with which k changes among n cells.
fn partner(n: usize, k: usize) -> usize
    requires { k < n }
    ensures { Partner n k result }
{
    if k % 2 == 1 {
        k - 1
    } else if k + 1 < n {
        k + 1
    } else {
        k
    }
}
