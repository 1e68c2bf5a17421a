// What a caller can do with a list. What a call leaves as it was stands at each call: it speaks of two
// values of the list, so it is no fact of its type.
ghost use Rattle.std.specs.Prelude.{◌≡◌, ℕ, ◌-◌, ◌<◌, [], ◌∷◌, ◌++◌, length, take, if◌then◌else◌, MatchOption, MatchResult, Some, nat_lt, slice_set};
ghost use Rattle.std.specs.List.{slice_get};
ghost use Rattle.list.specs.Contents.{Found, NonePasses, backing, contents, last_of, room, used};

use crate::places::{entry_at, find_in, in_use, kept, places, replace_at, write_at};
use crate::{BoundedList, Full, Test};

impl<'a, T: Copy> BoundedList<'a, T> {
    /// A list with no entry in use.
    pub fn new(entries: &'a mut [T]) -> Self
        ensures empty { contents result ≡ [] }
        ensures backing { backing result ≡ entries.old }
        ensures lender { result.entries.ghost_name ≡ entries.entry.ghost_name }
    {
        BoundedList { entries, count: 0 }
    }

    /// A list that holds the first `count` entries, or all if there are no more.
    pub fn holding(entries: &'a mut [T], count: usize) -> Self
        ensures contents { contents result ≡ take count entries.old }
        ensures backing { backing result ≡ entries.old }
        ensures lender { result.entries.ghost_name ≡ entries.entry.ghost_name }
    {
        BoundedList { entries, count }
    }

    /// How many entries the list can hold.
    pub fn capacity(&mut self) -> usize
        ensures value { result ≡ room self.old }
        ensures same { self.new ≡ self.old }
    {
        places(self.entries)
    }

    /// How many entries it holds.
    pub fn len(&mut self) -> usize
        ensures value { result ≡ used self.old }
        ensures same { self.new ≡ self.old }
    {
        let count = self.count;
        in_use(self.entries, count)
    }

    /// The entry at `i`, if it holds that many.
    pub fn get(&mut self, i: usize) -> Option<T>
        ensures value { result ≡ slice_get (contents self.old) i }
        ensures same { self.new ≡ self.old }
    {
        let count = self.count;
        entry_at(self.entries, count, i)
    }

    /// The last entry that passes a test.
    #[tactic(auto, using(crate::proofs::Finds::searched))]
    pub fn find<P: Test<T>>(&mut self, test: &P) -> Option<T>
        ensures value { result ≡ last_of (P.Test.holds test.now) (contents self.old) }
        ensures found { MatchOption result (NonePasses (P.Test.holds test.now) (contents self.old)) (Found (P.Test.holds test.now) (contents self.old)) }
        ensures same { self.new ≡ self.old }
    {
        let count = self.count;
        find_in(self.entries, count, test)
    }

    /// One entry more, or a refusal exactly if every place is in use.
    pub fn push(&mut self, x: T) -> Result<(), Full>
        ensures cases { MatchResult result
            (λ _. (used self.old < room self.old)
            × (contents self.new ≡ contents self.old ++ x ∷ [])
            × (backing self.new ≡ slice_set (backing self.old) (used self.old) x))
            (λ _. (used self.old ≡ room self.old)
            × (self.new ≡ self.old)) }
        ensures lender { self.new.entries.ghost_name ≡ self.old.entries.ghost_name }
    {
        let count = self.count;
        if count >= places(self.entries) {
            return Err(Full);
        }
        write_at(self.entries, count, x);
        self.count = count + 1;
        Ok(())
    }

    /// Takes the entry that stands behind the last one back into use, as it stands there; none exactly if every
    /// place is in use.
    #[tactic(auto, using(crate::proofs::Fronts::restored))]
    pub fn restore(&mut self) -> Option<T>
        ensures cases { MatchOption result
            ((used self.old ≡ room self.old)
            × (self.new ≡ self.old))
            (λ x. (slice_get (backing self.old) (used self.old) ≡ Some x)
            × (contents self.new ≡ contents self.old ++ x ∷ [])) }
        ensures backing { backing self.new ≡ backing self.old }
        ensures lender { self.new.entries.ghost_name ≡ self.old.entries.ghost_name }
    {
        let count = self.count;
        if count >= places(self.entries) {
            return None;
        }
        self.count += 1;
        self.get(count)
    }

    /// Takes the last entry off.
    pub fn pop(&mut self) -> Option<T>
        ensures value { result ≡ slice_get (contents self.old) (used self.old - 1) }
        ensures contents { contents self.new ≡ take (used self.old - 1) (contents self.old) }
        ensures free { 0 < used self.old → used self.new < room self.new }
        ensures backing { backing self.new ≡ backing self.old }
        ensures lender { self.new.entries.ghost_name ≡ self.old.entries.ghost_name }
    {
        let fewer = self.len().saturating_sub(1);
        let last = self.get(fewer);
        self.truncate(fewer);
        last
    }

    /// Keeps the first `n` entries, or all if there are no more.
    pub fn truncate(&mut self, n: usize)
        ensures contents { contents self.new ≡ take n (contents self.old) }
        ensures free { n < used self.old → used self.new < room self.new }
        ensures backing { backing self.new ≡ backing self.old }
        ensures lender { self.new.entries.ghost_name ≡ self.old.entries.ghost_name }
    {
        let count = self.count;
        self.count = kept(self.entries, count, n);
    }

    /// Drops every entry.
    pub fn clear(&mut self)
        ensures contents { contents self.new ≡ [] }
        ensures backing { backing self.new ≡ backing self.old }
        ensures lender { self.new.entries.ghost_name ≡ self.old.entries.ghost_name }
    {
        self.truncate(0);
    }

    /// Puts another entry in the place of the one at `i`, and answers the one that stood there, if there is one.
    pub fn replace(&mut self, i: usize, x: T) -> Option<T>
        ensures value { result ≡ slice_get (contents self.old) i }
        ensures contents { contents self.new ≡ slice_set (contents self.old) i x }
        ensures backing { backing self.new ≡ (if nat_lt i (used self.old) then slice_set (backing self.old) i x else backing self.old) }
        ensures lender { self.new.entries.ghost_name ≡ self.old.entries.ghost_name }
    {
        let count = self.count;
        replace_at(self.entries, count, i, x)
    }
}
