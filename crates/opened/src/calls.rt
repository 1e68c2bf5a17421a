ghost use Rattle.std.specs.Prelude.{◌≡◌, ◌+◌, ◌-◌, ◌<◌, ◌≤◌, [], ◌∷◌, ◌++◌, length, MatchOption};
ghost use Rattle.std.specs.Prelude.{slice_set};
ghost use Rattle.path.specs.Meaning.{path_of, step_of};
ghost use Rattle.std.specs.List.{slice_get};
ghost use Rattle.std.specs.Option.{option_map};
ghost use Rattle.opened.specs.Opens.{records_of};

use super::{Opened, RECORDS_MAX};
use path::{Path, Step};

impl Opened {
    /// At the root, with no open record.
    pub fn root() -> Opened
        ensures records { records_of result ≡ [] }
        ensures path { path_of result.path ≡ [] }
    {
        Opened {
            path: Path::root(),
            lens: [0; RECORDS_MAX],
            count: 0,
        }
    }

    /// The path.
    pub fn path(&self) -> Path
        ensures { result ≡ self.now.path }
    {
        self.path
    }

    /// One step further down, with the same records open, unless the path has all its steps.
    pub fn child(self, step: Step) -> Option<Opened>
        ensures { MatchOption result (8 ≤ length (path_of self.path))
            (λ q. (path_of q.path ≡ path_of self.path ++ step_of step ∷ [])
            × (records_of q ≡ records_of self)) }
    {
        let path = self.path.child(step)?;
        // In a variable first: the borrow checker has no rule yet for an array from field to field.
        let lens = self.lens;
        Some(Opened {
            path,
            lens,
            count: self.count,
        })
    }

    /// The record here opened as the innermost, unless nine are open.
    pub fn opened(self) -> Option<Opened>
        ensures { MatchOption result (9 ≤ length (records_of self))
            (λ q. (path_of q.path ≡ path_of self.path)
            × (records_of q ≡ path_of self.path ∷ records_of self)) }
    {
        let count = self.count as usize;
        if count >= RECORDS_MAX {
            return None;
        }
        let mut lens = self.lens;
        lens[count] = self.path.len() as u8;
        Some(Opened {
            path: self.path,
            lens,
            count: self.count + 1,
        })
    }

    /// The open record so many further out than the innermost, if there are so many.
    pub fn climb(&self, k: u64) -> Option<Path>
        ensures { option_map path_of result ≡ slice_get (records_of self.now) k }
    {
        if k >= self.count as u64 {
            return None;
        }
        let len = self.lens[self.count as usize - 1 - k as usize];
        Some(self.path.front(len as usize))
    }
}
