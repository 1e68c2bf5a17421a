// A bounded list: the first entries of a slice that the caller lends.
#![tactic(auto)]

ghost use Rattle.std.specs.Prelude.{◌≡◌, Bool};

mod calls;
mod places;
#[cfg(test)]
mod tests;

/// Said by `push` where every place of the slice is in use. A line says the same by a struct of its own: the
/// two share no crate, and one for a struct without fields would be no plainer.
#[derive(Clone, Copy)]
pub struct Full;

/// The entries in use are the first `count` of the slice, or all of them if it has fewer.
/// No `Vec`: libraries have no heap, and the memory of a list is its caller's.
#[derive(Drop)]
pub struct BoundedList<'a, T> {
    entries: &'a mut [T],
    count: usize,
}

/// A test of an entry. A trait and no closure: a closure would have to be asked for as one that may be
/// called, and no public function asks anything.
pub trait Test<T> {
    // whether an entry passes
    ghost holds: { Self → T → Bool };

    fn passes(&self, entry: &T) -> bool
        ensures { result ≡ holds self.now entry.now };
}
