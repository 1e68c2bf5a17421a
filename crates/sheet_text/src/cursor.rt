// Reads the values, lines and rows of a text in turn.
ghost use Rattle.std.specs.Prelude.{◌≡◌, ◌<◌, ◌≤◌, ◌==◌, length};
ghost use Rattle.std.specs.Option.{option_map};
ghost use Rattle.sheet_text.specs.Lines.{is_stop, viewed, part_at, line_view, line_at};
ghost use Rattle.sheet_text.specs.Rows.{stated, row_at};

use super::line::{Line, Part};
use super::refusal::Reason;
use super::row::Row;
use super::token::read_token;

/// The text of a sheet, read up to a place. That reading keeps the text stands at each call: it speaks of two
/// values of the cursor, so it is no fact of its type.
#[derive(Drop)]
pub struct Cursor<'t> {
    text: &'t [u8],
    at: usize,
    ghost inside: { at ≤ length text.now },
}

// Whether the byte ends a value.
fn ends_part(b: u8) -> bool
    ensures { result ≡ is_stop b }
{
    matches!(b, b',' | b'\n')
}

impl<'t> Cursor<'t> {
    /// The text from a place on.
    pub(crate) fn new(text: &'t [u8], at: usize) -> Cursor<'t>
        requires { at ≤ length text.now }
        ensures text { result.text.now ≡ text.now }
        ensures at { result.at ≡ at }
    {
        Cursor { text, at }
    }

    /// Whether all of the text is read.
    pub(crate) fn is_done(&self) -> bool
        ensures { result ≡ (self.now.at == length self.now.text.now) }
    {
        self.at == self.text.len()
    }

    // The value in front, if it is one and the byte `stop` ends it.
    fn part(&mut self, stop: u8) -> Option<Part<'t>>
        ensures text { self.new.text.now ≡ self.old.text.now }
        ensures is { option_map (viewed self.new.at) result ≡ part_at self.old.text.now self.old.at stop }
    {
        let at = self.at;
        let rest = &self.text[at..];
        let n = rest.iter().position(|b| ends_part(*b))?;
        if rest[n] != stop {
            return None;
        }
        let token = read_token(&rest[..n])?;
        self.at += n + 1;
        Some(Part { token, at })
    }

    // The line in front, if it is six values with commas between and a line feed.
    fn line(&mut self) -> Option<Line<'t>>
        ensures text { self.new.text.now ≡ self.old.text.now }
        ensures is { option_map (line_view self.new.at) result ≡ line_at self.old.text.now self.old.at }
    {
        let number = self.part(b',')?;
        let word = self.part(b',')?;
        let name = self.part(b',')?;
        let one = self.part(b',')?;
        let two = self.part(b',')?;
        let three = self.part(b'\n')?;
        Some(Line {
            number: number.token,
            word: word.token,
            name: name.column(),
            one: one.column(),
            two: two.column(),
            three: three.column(),
        })
    }

    /// The row that the line in front states as row k.
    #[tactic(auto, unfolding(crate::specs::Rows::row_at))]
    pub(crate) fn row(&mut self, k: usize) -> Result<Row, Reason>
        ensures text { self.new.text.now ≡ self.old.text.now }
        ensures is { stated self.new.at result ≡ row_at self.old.text.now self.old.at k }
    {
        self.line().ok_or(Reason::Line)?.row(k)
    }
}
