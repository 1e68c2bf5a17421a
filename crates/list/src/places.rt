// The places of a slice, of which the first `count` are in use. These are functions and no methods: each
// call of a list hands the slice to one that takes it for writing.
ghost use Rattle.std.specs.Prelude.{◌≡◌, ◌<◌, min, length, take, if◌then◌else◌, nat_lt, slice_set};
ghost use Rattle.std.specs.List.{slice_get};
ghost use Rattle.list.specs.Contents.{last_of};

use crate::Test;
use std::mem;

// How many places a slice has.
pub(crate) fn places<T>(entries: &mut [T]) -> usize
    ensures value { result ≡ length entries.old }
    ensures same { entries.new ≡ entries.old }
{
    entries.len()
}

// How many places are in use.
pub(crate) fn in_use<T>(entries: &mut [T], count: usize) -> usize
    ensures value { result ≡ length (take count entries.old) }
    ensures least { result ≡ min count (length entries.old) }
    ensures same { entries.new ≡ entries.old }
{
    count.min(entries.len())
}

// How many places are in use where only the first `n` entries are kept.
pub(crate) fn kept<T>(entries: &mut [T], count: usize, n: usize) -> usize
    ensures value { take result entries.old ≡ take n (take count entries.old) }
    ensures same { entries.new ≡ entries.old }
{
    in_use(entries, count.min(n))
}

// The entry in use at `i`.
pub(crate) fn entry_at<T: Copy>(entries: &mut [T], count: usize, i: usize) -> Option<T>
    ensures value { result ≡ slice_get (take count entries.old) i }
    ensures same { entries.new ≡ entries.old }
{
    let n = in_use(entries, count);
    entries[..n].get(i).copied()
}

// Writes one place.
pub(crate) fn write_at<T: Copy>(entries: &mut [T], i: usize, x: T)
    requires { i < length entries.old }
    ensures { entries.new ≡ slice_set entries.old i x }
{
    entries[i] = x;
}

// Writes the place at `i` if it is in use, and answers the entry that stood there.
pub(crate) fn replace_at<T: Copy>(entries: &mut [T], count: usize, i: usize, x: T) -> Option<T>
    ensures value { result ≡ slice_get (take count entries.old) i }
    ensures contents { take count entries.new ≡ slice_set (take count entries.old) i x }
    ensures backing { entries.new ≡ (if nat_lt i (length (take count entries.old)) then slice_set entries.old i x else entries.old) }
{
    if i >= in_use(entries, count) {
        return None;
    }
    Some(mem::replace(&mut entries[i], x))
}

// The last entry in use that passes a test.
pub(crate) fn find_in<T: Copy, P: Test<T>>(entries: &mut [T], count: usize, test: &P) -> Option<T>
    ensures value { result ≡ last_of (P.Test.holds test.now) (take count entries.old) }
    ensures same { entries.new ≡ entries.old }
{
    let mut i = in_use(entries, count);
    while i > 0 {
        i -= 1;
        if test.passes(&entries[i]) {
            return Some(entries[i]);
        }
    }
    None
}
