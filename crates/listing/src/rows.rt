// Values of a listing's lines, and the line of a refusal.
ghost use Rattle.std.specs.Prelude.{ℕ, ◌≤◌, List, length};
ghost use Rattle.cells.specs.declared.cell.Cell.{Cell};
ghost use Rattle.listing.specs.Rows.{behind_comma, tail_text, value_text, told_text};

use crate::part::Part;
use cells::source::Source;
use line::sink::Sink;
use told::Told;

// Writes a value behind a comma, or a dash for one that is lacking.
fn put_value<W: Sink>(out: &mut W, value: Option<u64>)
    ensures took { W.Sink.took out.old (behind_comma (value_text value)) out.new }
    ensures short { length (value_text value) ≤ 20 }
{
    out.text(b",");
    match value {
        Some(n) => out.number(n),
        None => out.text(b"-"),
    }
}

// Writes what follows the first value: word, place, width and bytes.
pub(crate) fn put_tail<W: Sink, S: Source>(out: &mut W, word: &[u8], part: &Part<'_, S>)
    ensures { W.Sink.took out.old (tail_text (S.Source.cells part.now.source.now) word.now part.now.place part.now.width) out.new }
{
    out.text(b",");
    out.text(word);
    put_value(out, Some(part.place as u64));
    put_value(out, Some(part.width as u64));
    out.text(b",");
    part.put_bytes(out);
}

// Writes the number of a refusal and the values that it carries.
pub(crate) fn put_told<W: Sink>(out: &mut W, told: Told)
    ensures took { W.Sink.took out.old (told_text told) out.new }
    ensures short { length (told_text told) ≤ 146 }
{
    out.number(u64::from(told.number));
    for value in [
        told.line,
        told.row,
        told.place,
        told.pieces,
        told.lost,
        told.layers,
    ] {
        put_value(out, value);
    }
}
