ghost use Rattle.std.specs.Prelude.{◌≡◌, ℕ, ◌+◌, ◌≤◌, [], ◌∷◌, decimal};
ghost use Rattle.line.specs.Digits.{Writes, hex_text};
ghost use Rattle.line.specs.Fills.{Appends};
ghost use Rattle.line.specs.Text.{memory, text, used, room};

use super::digits::hex_digits;
use super::{Full, Line};
use itoa::Buffer;

impl<'a> Line<'a> {
    pub fn new(places: &'a mut [u8]) -> Self
        ensures empty { text result ≡ [] }
        ensures memory { memory result ≡ places.old }
        ensures lender { result.places.ghost_name ≡ places.entry.ghost_name }
    {
        Line { places, len: 0 }
    }

    pub fn len(&self) -> usize
        ensures value { result ≡ used self.now }
        ensures bound { result ≤ room self.now }
    {
        self.as_bytes().len()
    }

    /// How many bytes can still be appended.
    pub fn free(&self) -> usize
        ensures { used self.now + result ≡ room self.now }
    {
        self.places.len() - self.len
    }

    pub fn as_bytes(&self) -> &[u8]
        ensures { result.now ≡ text self.now }
    {
        &self.places[..self.len]
    }

    pub fn clear(&mut self)
        ensures empty { text self.new ≡ [] }
        ensures memory { memory self.new ≡ memory self.old }
        ensures lender { self.new.places.ghost_name ≡ self.old.places.ghost_name }
    {
        self.len = 0;
    }

    pub fn push_text(&mut self, bytes: &[u8]) -> Result<(), Full>
        ensures { Appends self.old bytes.now result self.new }
    {
        if self.free() < bytes.len() {
            return Err(Full);
        }
        let end = self.len + bytes.len();
        self.places[self.len..end].copy_from_slice(bytes);
        self.len = end;
        Ok(())
    }

    /// Appends `n` in decimal.
    pub fn push_number(&mut self, n: u64) -> Result<(), Full>
        ensures numeral { Writes n (decimal n) }
        ensures digits { Appends self.old (decimal n) result self.new }
    {
        self.push_text(Buffer::new().format(n).as_bytes())
    }

    /// Appends two hexadecimal digits.
    pub fn push_hex(&mut self, byte: u8) -> Result<(), Full>
        ensures { Appends self.old (hex_text byte) result self.new }
    {
        self.push_text(&hex_digits(byte))
    }

    pub fn push_byte(&mut self, byte: u8) -> Result<(), Full>
        ensures { Appends self.old (byte ∷ []) result self.new }
    {
        self.push_text(&[byte])
    }
}
