// Paths: one step more, the front, the steps by number, and whether two are the same.
ghost use Rattle.std.specs.Prelude.{◌≡◌, ℕ, ◌-◌, ◌≤◌, [], ◌∷◌, ◌++◌, length, take, Decides, MatchOption, slice_set};
ghost use Rattle.std.specs.List.{slice_get};
ghost use Rattle.std.specs.Option.{option_map};
ghost use Rattle.std.specs.Ordering.{on};
ghost use Rattle.std.specs.Cmp.{on_per};
ghost use Rattle.path.specs.Meaning.{step_of, path_of, same_path};
ghost use Rattle.path.specs.Equal.{paths_per};
ghost use Rattle.path.specs.Lawful.{LawfulPath};

use super::{Element, Path, STEPS_MAX, Step};

impl Path {
    /// The path without a step.
    pub fn root() -> Path
        ensures { path_of result ≡ [] }
    {
        Path {
            steps: [Step::Index(Element { number: 0 }); STEPS_MAX],
            len: 0,
        }
    }

    /// One step further down, unless the path has all its steps.
    pub fn child(self, step: Step) -> Option<Path>
        ensures { MatchOption result (8 ≤ length (path_of self)) (λ p. path_of p ≡ path_of self ++ step_of step ∷ []) }
    {
        let len = self.len as usize;
        if len >= STEPS_MAX {
            return None;
        }
        let mut steps = self.steps;
        steps[len] = step;
        Some(Path {
            steps,
            len: self.len + 1,
        })
    }

    /// Goes from the same place by another step: the last step is replaced, if there is one.
    pub fn turn(&mut self, step: Step)
        ensures { path_of self.new ≡ slice_set (path_of self.old) (length (path_of self.old) - 1) (step_of step) }
    {
        let len = self.len as usize;
        if len > 0 {
            self.steps[len - 1] = step;
        }
    }

    /// The path of the first `n` steps, or all if there are no more.
    pub fn front(self, n: usize) -> Path
        ensures { path_of result ≡ take n (path_of self) }
    {
        // In a variable first: the borrow checker has no rule yet for an array from field to field.
        let steps = self.steps;
        let len = n.min(self.len as usize);
        Path {
            steps,
            len: len as u8,
        }
    }

    /// How many steps the path has. Every path is lawful.
    pub fn len(&self) -> usize
        ensures value { result ≡ length (path_of self.now) }
        ensures bound { result ≤ 8 }
        ensures lawful { LawfulPath (path_of self.now) }
    {
        self.len as usize
    }

    // The steps from the root down.
    pub(crate) fn in_use(&self) -> &[Step]
        ensures { result.now ≡ take self.now.len self.now.steps }
    {
        &self.steps[..self.len as usize]
    }

    /// The step at `i`, counted from the root, if there is one.
    pub fn step(&self, i: usize) -> Option<Step>
        ensures { option_map step_of result ≡ slice_get (path_of self.now) i }
    {
        self.in_use().get(i).copied()
    }
}

// By hand: a derive would also compare the places behind the last step.
impl PartialEq for Path {
    ghost eq = { on path_of same_path };

    ghost laws = { on_per path_of paths_per };

    fn eq(&self, other: &Path) -> bool
        ensures is { result ≡ same_path (path_of self.now) (path_of other.now) }
        ensures same { Decides result (path_of self.now ≡ path_of other.now) }
    {
        self.in_use() == other.in_use()
    }
}
