// A join: the cells of one source, then those of another, cut at 65,535.
ghost use Rattle.std.specs.Prelude.{◌≡◌, ◌++◌};
ghost use Rattle.layers.specs.Layers.{joined, join_spares};
ghost use Rattle.layers.specs.Laws.{joined_lawful, joined_whole};

use crate::answers::passed_up;
use cells::cell::ReadFault;
use cells::source::{Source, Store};

#[derive(Drop)]
pub struct Join<S, T> {
    first: S,
    second: T,
}

impl<S: Source, T: Source> Join<S, T> {
    pub fn new(first: S, second: T) -> Self
        ensures { result ≡ record { first = first; second = second } }
    {
        Join { first, second }
    }
}

impl<S: Source, T: Source> Source for Join<S, T> {
    ghost cells = { λ s. joined (S.Source.cells s.first) (T.Source.cells s.second) };

    ghost lawful = { λ s. joined_lawful (S.Source.cells s.first) (T.Source.cells s.second) (S.Source.lawful s.first) (T.Source.lawful s.second) };

    #[tactic(auto, using(crate::specs::Laws::joined_length))]
    fn len(&self) -> usize {
        self.first
            .len()
            .saturating_add(self.second.len())
            .min(65535)
    }

    #[tactic(auto, using(crate::proofs::Joins::join_steps))]
    fn read(&self, k: usize) -> Result<u8, ReadFault> {
        let n = self.first.len();
        if k >= 65535 {
            Err(ReadFault::PastEnd(k))
        } else if k < n {
            passed_up(k, self.first.read(k))
        } else {
            passed_up(k, self.second.read(k - n))
        }
    }
}

impl<S: Store, T: Store> Store for Join<S, T> {
    ghost spares = { λ s. join_spares (S.Source.cells s.first) (T.Source.cells s.second) ++ (S.Store.spares s.first ++ T.Store.spares s.second) };

    ghost fixed = { λ s. S.Store.fixed s.first ++ T.Store.fixed s.second };

    ghost whole = { λ s. joined_whole (S.Source.cells s.first) (T.Source.cells s.second) (S.Store.whole s.first) (T.Store.whole s.second) };

    #[tactic(auto, using(crate::proofs::Joins::join_steps))]
    fn write(&mut self, k: usize, b: u8) -> Result<u8, ReadFault> {
        let n = self.first.len();
        if k >= 65535 {
            Err(ReadFault::PastEnd(k))
        } else if k < n {
            passed_up(k, self.first.write(k, b))
        } else {
            passed_up(k, self.second.write(k - n, b))
        }
    }
}
