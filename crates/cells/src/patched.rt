// A source with other bytes in the places of some of its cells, as far as it has cells.
ghost use Rattle.std.specs.Prelude.{◌≡◌};
ghost use Rattle.cells.specs.Changed.{MakesOf, changed, changes_of};
ghost use Rattle.cells.specs.Laws.{changed_lawful};

use crate::cell::ReadFault;
use crate::change::Change;
use crate::source::Source;

/// A source as it would be with changes made to it, none of which is written.
#[derive(Drop)]
pub struct Patched<'a, 'b, S> {
    below: &'a S,
    changes: &'b [Change<'b>],
}

impl<'a, 'b, S: Source> Patched<'a, 'b, S> {
    /// Of two changes that overlap the later one counts.
    pub fn new(below: &'a S, changes: &'b [Change<'b>]) -> Self
        ensures below { result.below.now ≡ below.now }
        ensures changes { result.changes.now ≡ changes.now }
    {
        Patched { below, changes }
    }

    // The new byte of cell k, if it has one: that of the last change that has one for it.
    fn new_byte(&self, k: usize) -> Option<u8>
        ensures { MakesOf (changes_of self.now.changes.now) k result }
    {
        let mut byte = None;
        for change in self.changes {
            byte = change.byte_at(k).or(byte);
        }
        byte
    }
}

impl<'a, 'b, S: Source> Source for Patched<'a, 'b, S> {
    ghost cells = { λ s. changed (S.Source.cells s.below.now) (changes_of s.changes.now) };

    ghost lawful = { λ s. changed_lawful (S.Source.cells s.below.now)
        (changes_of s.changes.now) (S.Source.lawful s.below.now) };

    #[tactic(auto, using(crate::specs::Laws::changed_length))]
    fn len(&self) -> usize {
        self.below.len()
    }

    fn read(&self, k: usize) -> Result<u8, ReadFault> {
        if k >= self.below.len() {
            return Err(ReadFault::PastEnd(k));
        }
        match self.new_byte(k) {
            Some(b) => Ok(b),
            None => self.below.read(k),
        }
    }
}
