// What is written as text.
ghost use Rattle.std.specs.Prelude.{◌≡◌, ◌+◌, ◌≤◌, ℕ, false, List, length, MatchOption, nat_le};
ghost use Rattle.line.specs.Fills.{Appends};
ghost use Rattle.line.specs.Text.{room, used};

use crate::sink::{Sink, Size};
use crate::{Full, Line};

/// What has a text. A trait and no closure, since it is called with a size and with a line; and not
/// `Display`, which writes to places that promise nothing when they are full.
pub trait Text {
    // the text
    ghost text: { Self → List ℕ };

    // how long it can be
    ghost longest: { Self → ℕ };

    /// No fewer bytes than the text has, where that is told without writing it.
    fn most(&self) -> Option<usize>
        ensures { MatchOption result (Unit {0}) (λ n. length (text self.now) ≤ n) };

    /// Writes the whole text.
    fn write<W: Sink>(&self, out: &mut W)
        ensures took { W.took out.old (text self.now) out.new }
        ensures short { length (text self.now) ≤ longest self.now };
}

impl<'a> Line<'a> {
    // Whether there is room for the whole text. It is counted only where no bound tells.
    fn takes<T: Text>(&self, what: &T) -> bool
        ensures fits { result ≡ nat_le (used self.now + length (T.Text.text what.now)) (room self.now) }
        ensures short { result ≡ false → length (T.Text.text what.now) ≤ T.Text.longest what.now }
    {
        if what.most().unwrap_or(usize::MAX) <= self.free() {
            return true;
        }
        let mut size = Size { bytes: 0 };
        what.write(&mut size);
        size.bytes <= self.free()
    }

    /// Appends the whole text of something, or refuses and changes nothing.
    pub fn push<T: Text>(&mut self, what: &T) -> Result<(), Full>
        ensures value { Appends self.old (T.Text.text what.now) result self.new }
        ensures short { length (T.Text.text what.now) ≤ T.Text.longest what.now }
    {
        if !self.takes(what) {
            return Err(Full);
        }
        what.write(self);
        Ok(())
    }
}
