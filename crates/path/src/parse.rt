// Paths read from print.
ghost use Rattle.std.specs.Prelude.{◌≡◌, ℕ, ◌≤◌, List, [], ◌∷◌, ◌++◌, length, Some, decimal, MatchOption, IfSome};
ghost use Rattle.std.specs.List.{position_or_len};
ghost use Rattle.std.specs.Option.{option_map};
ghost use Rattle.path.specs.Lawful.{Lawful, LawfulPath};
ghost use Rattle.path.specs.Meaning.{Downward, path_of, step_of};
ghost use Rattle.path.specs.Printed.{leads, printed, step_text};

use super::{Element, Name, Path, Step};
use sheet_text::read_number;

// Whether a step begins with the byte.
fn leads(b: u8) -> bool
    ensures { result ≡ leads b }
{
    matches!(b, b'.' | b'[')
}

// How many bytes stand ahead of the next step.
fn ahead(text: &[u8]) -> usize
    ensures value { result ≡ position_or_len leads text.now }
    ensures bound { result ≤ length text.now }
{
    text.iter().position(|b| leads(*b)).unwrap_or(text.len())
}

// The element whose number the digits are in print.
fn element_of(digits: &[u8]) -> Option<Element>
    ensures { MatchOption result ((i : ℕ) → i ≤ 65534 → decimal i ≡ digits.now → ⊥) (λ e. decimal e.number ≡ digits.now) }
{
    Element::new(read_number(digits)?)
}

// The same with a closing bracket behind the digits.
fn read_element(text: &[u8]) -> Option<Element>
    ensures { MatchOption result ((i : ℕ) → i ≤ 65534 → decimal i ++ 93 ∷ [] ≡ text.now → ⊥) (λ e. decimal e.number ++ 93 ∷ [] ≡ text.now) }
{
    let (last, digits) = text.split_last()?;
    if *last != b']' {
        return None;
    }
    element_of(digits)
}

// The step that the text prints, if it prints one.
fn read_step(text: &[u8]) -> Option<Step>
    ensures { MatchOption result ((d : Downward) → Lawful d → step_text d ≡ text.now → ⊥) (λ s. step_text (step_of s) ≡ text.now) }
{
    let (lead, body) = text.split_first()?;
    match *lead {
        b'.' => Name::new(body).map(Step::Field),
        b'[' => read_element(body).map(Step::Index),
        _ => None,
    }
}

impl Path {
    /// The path that the text prints, if it prints one.
    pub fn parse(text: &[u8]) -> Option<Path>
        ensures only { IfSome result (λ p. printed (path_of p) ≡ text.now) }
        ensures every { (ds : List Downward) → LawfulPath ds → printed ds ≡ text.now → option_map path_of result ≡ Some ds }
    {
        let mut rest = text.strip_prefix(b"root")?;
        let mut path = Path::root();
        while !rest.is_empty() {
            let (step, behind) = rest.split_at(1 + ahead(&rest[1..]));
            path = path.child(read_step(step)?)?;
            rest = behind;
        }
        Some(path)
    }
}
