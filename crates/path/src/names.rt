// Names, elements and steps.
ghost use Rattle.std.specs.Prelude.{◌≡◌, ℕ, ◌<◌, ◌≤◌, length, take, Decides, MatchOption};
ghost use Rattle.sheet_text.specs.Plain.{ProperName};
ghost use Rattle.std.specs.Str.{bytes_eq};
ghost use Rattle.std.specs.Ordering.{on};
ghost use Rattle.std.specs.Cmp.{on_per};
ghost use Rattle.path.specs.Meaning.{name_of, step_of, same_step};
ghost use Rattle.path.specs.Equal.{bytes_per, steps_per};

use super::{Element, INDEX_MAX, Name, Step};
use sheet_text::is_name;

// The text, with zeros behind it.
fn padded(text: &[u8]) -> [u8; 16]
    requires { length text.now ≤ 16 }
    ensures { take (length text.now) result ≡ text.now }
{
    let len = text.len();
    let mut bytes = [0; 16];
    bytes[0..len].copy_from_slice(text);
    bytes
}

impl Name {
    /// The name that the text is, if it is one.
    pub fn new(text: &[u8]) -> Option<Name>
        ensures { MatchOption result
            (ProperName text.now → ⊥)
            (λ n. ProperName text.now × (name_of n ≡ text.now)) }
    {
        if !is_name(text) {
            return None;
        }
        let bytes = padded(text);
        Some(Name {
            bytes,
            len: text.len() as u8,
        })
    }

    pub fn as_bytes(&self) -> &[u8]
        ensures { result.now ≡ name_of self.now }
    {
        &self.bytes[0..self.len as usize]
    }
}

// By hand: a derive would also compare the places behind the name.
impl PartialEq for Name {
    ghost eq = { on name_of bytes_eq };

    ghost laws = { on_per name_of bytes_per };

    fn eq(&self, other: &Name) -> bool
        ensures is { result ≡ bytes_eq (name_of self.now) (name_of other.now) }
        ensures same { Decides result (name_of self.now ≡ name_of other.now) }
    {
        self.as_bytes() == other.as_bytes()
    }
}

impl Element {
    /// The element of this number, unless no element has so high a number.
    pub fn new(number: u64) -> Option<Element>
        ensures { MatchOption result (65534 < number) (λ e. (number ≤ 65534) × (e.number ≡ number)) }
    {
        if number > INDEX_MAX {
            return None;
        }
        Some(Element {
            number: number as u16,
        })
    }

    pub fn number(self) -> u16
        ensures value { result ≡ self.number }
        ensures bound { result ≤ 65534 }
    {
        self.number
    }
}

// By hand: a derive would not promise what equal steps mean.
impl PartialEq for Step {
    ghost eq = { on step_of same_step };

    ghost laws = { on_per step_of steps_per };

    fn eq(&self, other: &Step) -> bool
        ensures is { result ≡ same_step (step_of self.now) (step_of other.now) }
        ensures same { Decides result (step_of self.now ≡ step_of other.now) }
    {
        match (self, other) {
            (Step::Field(a), Step::Field(b)) => a == b,
            (Step::Index(a), Step::Index(b)) => a == b,
            _ => false,
        }
    }
}
