// Places that text goes to, one text after another.
ghost use Rattle.std.specs.Prelude.{◌≡◌, ◌+◌, ◌<◌, ℕ, List, length, decimal};
ghost use Rattle.line.specs.Digits.{hex_text};
ghost use Rattle.line.specs.Fills.{Fills};
ghost use Rattle.line.specs.Laws.{fills_joins, counted_joins};
ghost use Rattle.line.specs.Sinks.{Joins, Counted};
ghost use Rattle.line.specs.Text.{room, used};

use crate::Line;
use crate::digits::count_digits;

/// A place that text goes to. `fmt::Write` does not serve: it says nothing of a place that is full, and a
/// full line stays as it was.
pub trait Sink {
    // what a place becomes by a text
    ghost took: { Self → List ℕ → Self → Type 0 };

    fn text(&mut self, bytes: &[u8])
        ensures { took self.old bytes.now self.new };

    /// Takes `n` in decimal.
    fn number(&mut self, n: u64)
        ensures { took self.old (decimal n) self.new };

    /// Takes two hexadecimal digits.
    fn hex(&mut self, byte: u8)
        ensures { took self.old (hex_text byte) self.new };

    // what each `impl` must prove
    ghost joins: { Joins took };
}

// A line takes what it has room for all of.
impl Sink for Line<'_> {
    ghost took = { Fills };

    ghost joins = { fills_joins };

    fn text(&mut self, bytes: &[u8])
        ensures took { Fills self.old bytes.now self.new }
        ensures full { room self.old < used self.old + length bytes.now → self.new ≡ self.old }
    {
        let _ = self.push_text(bytes);
    }

    fn number(&mut self, n: u64)
        ensures took { Fills self.old (decimal n) self.new }
        ensures full { room self.old < used self.old + length (decimal n) → self.new ≡ self.old }
    {
        let _ = self.push_number(n);
    }

    fn hex(&mut self, byte: u8)
        ensures took { Fills self.old (hex_text byte) self.new }
        ensures full { room self.old < used self.old + 2 → self.new ≡ self.old }
    {
        let _ = self.push_hex(byte);
    }
}

/// A count of the bytes, and no place for them. It may stop at the largest number.
#[derive(Clone, Copy)]
pub struct Size {
    pub bytes: usize,
}

impl Sink for Size {
    ghost took = { λ s text t. Counted s.bytes text t.bytes };

    ghost joins = { counted_joins (λ s. s.bytes) };

    fn text(&mut self, bytes: &[u8]) {
        self.bytes = self.bytes.saturating_add(bytes.len());
    }

    fn number(&mut self, n: u64) {
        self.bytes = self.bytes.saturating_add(count_digits(n));
    }

    fn hex(&mut self, _byte: u8) {
        self.bytes = self.bytes.saturating_add(2);
    }
}
