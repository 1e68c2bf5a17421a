// Cells in print.
ghost use Rattle.std.specs.Prelude.{◌≡◌, ℕ, List};
ghost use Rattle.cells.specs.declared.cell.Cell.{Cell};
ghost use Rattle.listing.specs.Parts.{answer_text, bytes_text, part_of};

use cells::cell::ReadFault;
use cells::source::Source;
use line::sink::Sink;

// So many cells of a source from a place on, or as many as there are.
#[derive(Drop)]
pub(crate) struct Part<'s, S> {
    pub source: &'s S,
    pub place: usize,
    pub width: usize,
}

impl<'s, S: Source> Part<'s, S> {
    // Writes all the cells, or one dash if there is none.
    pub(crate) fn put_bytes<W: Sink>(&self, out: &mut W)
        ensures { W.Sink.took out.old (bytes_text (part_of (S.Source.cells self.now.source.now) self.now.place self.now.width)) out.new }
    {
        let end = self.place.saturating_add(self.width).min(self.source.len());
        if end <= self.place {
            out.text(b"-");
            return;
        }
        // A source has no slice to go over: it is read place by place.
        for k in self.place..end {
            put_cell(out, self.source.read(k));
        }
    }
}

// Writes one cell, by what a read of it answers.
fn put_cell<W: Sink>(out: &mut W, answer: Result<u8, ReadFault>)
    ensures { W.Sink.took out.old (answer_text answer) out.new }
{
    match answer {
        Ok(byte) => out.hex(byte),
        Err(_) => out.text(b"--"),
    }
}
