// Paths in print: `root.pts[1]`.
ghost use Rattle.std.specs.Prelude.{◌≡◌, ◌≤◌, length};
ghost use Rattle.line.specs.Fills.{Appends};
ghost use Rattle.path.specs.Meaning.{path_of, step_of};
ghost use Rattle.path.specs.Printed.{printed, step_text};

use super::{PRINTED_MAX, Path, Step};
use line::sink::Sink;
use line::{Full, Line, Text};

impl Text for Step {
    ghost text = { λ s. step_text (step_of s) };

    ghost longest = { λ s. 17 };

    fn most(&self) -> Option<usize> {
        None
    }

    #[tactic(auto, using(crate::proofs::Prints::each_short))]
    fn write<W: Sink>(&self, out: &mut W) {
        match self {
            Step::Field(name) => {
                out.text(b".");
                out.text(name.as_bytes());
            }
            Step::Index(element) => {
                out.text(b"[");
                out.number(u64::from(element.number()));
                out.text(b"]");
            }
        }
    }
}

impl Text for Path {
    ghost text = { λ p. printed (path_of p) };

    ghost longest = { λ p. 140 };

    #[tactic(auto, using(crate::proofs::Prints::path_short))]
    fn most(&self) -> Option<usize> {
        Some(PRINTED_MAX)
    }

    #[tactic(auto, using(crate::proofs::Prints::path_short))]
    fn write<W: Sink>(&self, out: &mut W) {
        out.text(b"root");
        for step in self.in_use() {
            step.write(out);
        }
    }
}

impl Path {
    /// Appends the path in print, or refuses and changes nothing.
    pub fn print(&self, line: &mut Line<'_>) -> Result<(), Full>
        ensures short { length (printed (path_of self.now)) ≤ PRINTED_MAX }
        ensures max { PRINTED_MAX ≡ 140 }
        ensures value { Appends line.old (printed (path_of self.now)) result line.new }
    {
        line.push(self)
    }
}
