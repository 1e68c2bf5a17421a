// Changes of a message, written one after another.
ghost use Rattle.std.specs.Prelude.{◌≡◌};
ghost use Rattle.cells.specs.Changed.{IsByteFor, change_of, changed, changes_of, with_bytes};

use crate::source::Store;

/// New bytes for a place of a message and the places behind it.
#[derive(Clone, Copy)]
pub struct Change<'a> {
    pub place: usize,
    pub bytes: &'a [u8],
}

impl Change<'_> {
    // The byte for cell k, if there is one.
    pub(crate) fn byte_at(&self, k: usize) -> Option<u8>
        ensures { IsByteFor (change_of self.now) k result }
    {
        if k < self.place {
            return None;
        }
        self.bytes.get(k - self.place).copied()
    }
}

// Writes one change.
#[tactic(auto, using(crate::proofs::Changes::written))]
fn write_change<S: Store>(store: &mut S, change: &Change<'_>)
    ensures after { S.Source.cells store.new
        ≡ with_bytes (S.Source.cells store.old) change.now.place change.now.bytes.now }
    ensures spares { S.Store.spares store.new ≡ S.Store.spares store.old }
    ensures fixed { S.Store.fixed store.new ≡ S.Store.fixed store.old }
{
    let place = change.place;
    let bytes = change.bytes;
    let n = store.len().saturating_sub(place).min(bytes.len());
    for i in 0..n {
        // no write is refused: the store has a cell there
        let _ = store.write(place + i, bytes[i]);
    }
}

/// Writes the bytes of each change in turn, as far as the store has cells.
pub fn write_bytes<S: Store>(store: &mut S, changes: &[Change<'_>])
    ensures after { S.Source.cells store.new
        ≡ changed (S.Source.cells store.old) (changes_of changes.now) }
    ensures spares { S.Store.spares store.new ≡ S.Store.spares store.old }
    ensures fixed { S.Store.fixed store.new ≡ S.Store.fixed store.old }
{
    for change in changes {
        write_change(store, change);
    }
}
