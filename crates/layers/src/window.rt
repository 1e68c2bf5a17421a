// A window: the first `count` cells of what remains below without the first `start`.
ghost use Rattle.std.specs.Prelude.{◌≡◌, ◌-◌, min, [], ◌∷◌};
ghost use Rattle.layers.specs.Layers.{windowed, window_spares};
ghost use Rattle.layers.specs.Laws.{windowed_length, windowed_lawful, windowed_whole};

use crate::layer::{Layer, Placing};
use cells::source::Source;

pub type Window<S> = Layer<S, Cut>;

#[derive(Drop)]
pub struct Cut {
    start: usize,
    count: usize,
}

impl<S: Source> Layer<S, Cut> {
    pub fn new(below: S, start: usize, count: usize) -> Self
        ensures { result ≡ record { below = below; placing = record { start = start; count = count } } }
    {
        Layer::over(below, Cut { start, count })
    }
}

impl Placing for Cut {
    ghost layer = { λ p. windowed p.start p.count };

    ghost count = { λ p n. min p.count (n - p.start) };

    ghost left_out = { λ p. window_spares p.start p.count };

    ghost numbers = { λ p. p.start ∷ (p.count ∷ []) };

    ghost counted = { λ p. windowed_length p.start p.count };

    ghost lawful = { λ p. windowed_lawful p.start p.count };

    ghost whole = { λ p. windowed_whole p.start p.count };

    fn len(&self, n: usize) -> usize {
        n.saturating_sub(self.start).min(self.count)
    }

    #[tactic(auto, using(crate::specs::Laws::windowed_length))]
    fn place(&self, n: usize, k: usize) -> Option<usize> {
        if k < self.len(n) {
            Some(self.start + k)
        } else {
            None
        }
    }
}
