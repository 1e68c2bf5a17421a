// The two things that a listing can tell.
ghost use Rattle.std.specs.Prelude.{◌≡◌, ◌+◌, ◌*◌, ◌<◌, ◌≤◌, length, map};
ghost use Rattle.listing.specs.Lines.{laid, fault, lines_of, whole_text};
ghost use Rattle.listing.specs.Rows.{piece_text, rest_text, word_text};
ghost use Rattle.meaning.specs.Terms.{piece_of, pieces_of};
ghost use Rattle.sheet.specs.Sheets.{rows_of};
ghost use Rattle.sheet.specs.Verdict.{word_if};

use crate::part::Part;
use crate::rows::{put_tail, put_told};
use cells::source::Source;
use line::Text;
use line::sink::Sink;
use path::Piece;
use sheet::CheckedSheet;
use told::Told;

// No fewer bytes than the line of a piece at that place and of that width has.
fn most_of(place: u16, width: u8) -> usize
    ensures is { result ≡ 192 + 2 * width }
    ensures few { result ≤ 702 }
    ensures place { place < 65536 }
    ensures width { width < 256 }
{
    192 + 2 * usize::from(width)
}

// The pieces that a sheet has in a message, and how many of its cells they cover.
#[derive(Drop)]
pub(crate) struct Laying<'s, 't, 'r, S> {
    pub sheet: &'s CheckedSheet<'t, 'r>,
    pub source: &'s S,
    pub pieces: &'s [Piece],
    pub covered: usize,
}

impl<S: Source> Laying<'_, '_, '_, S> {
    // Writes a piece.
    fn put_piece<W: Sink>(&self, out: &mut W, piece: &Piece)
        ensures { W.Sink.took out.old (piece_text (rows_of self.now.sheet.now) (S.Source.cells self.now.source.now) (piece_of piece.now)) out.new }
    {
        let part = Part {
            source: self.source,
            place: usize::from(piece.place),
            width: usize::from(piece.width),
        };
        piece.path.write(out);
        put_tail(out, self.word_of(piece), &part);
    }

    // The word of a piece's row, or a dash.
    fn word_of(&self, piece: &Piece) -> &'static [u8]
        ensures { result.now ≡ word_text (word_if (rows_of self.now.sheet.now) piece.now.row) }
    {
        match self.sheet.word(usize::from(piece.row)) {
            Some(word) => word.text().as_bytes(),
            None => b"-",
        }
    }

    // Writes a line for each piece.
    fn put_pieces<W: Sink>(&self, out: &mut W)
        ensures { W.Sink.took out.old (whole_text (map (piece_text (rows_of self.now.sheet.now) (S.Source.cells self.now.source.now)) (pieces_of self.now.pieces.now))) out.new }
    {
        for piece in self.pieces {
            self.put_piece(out, piece);
            out.text(b"\n");
        }
    }

    // No fewer bytes than the lines of the pieces have.
    fn most_of_pieces(&self) -> usize
        requires { length self.now.pieces.now ≤ 65535 }
        ensures lines { length (whole_text (map (piece_text (rows_of self.now.sheet.now) (S.Source.cells self.now.source.now)) (pieces_of self.now.pieces.now))) ≤ result }
        ensures few { result ≤ 65535 * 702 }
    {
        let mut most = 0;
        for piece in self.pieces {
            most += most_of(piece.place, piece.width);
        }
        most
    }

    // Writes what the cells have behind the covered ones.
    fn put_rest<W: Sink>(&self, out: &mut W)
        ensures { W.Sink.took out.old (rest_text (S.Source.cells self.now.source.now) self.now.covered) out.new }
    {
        let rest = Part {
            source: self.source,
            place: self.covered,
            width: self.source.len().saturating_sub(self.covered),
        };
        out.text(b"rest");
        put_tail(out, b"-", &rest);
    }
}

impl<S: Source> Text for Laying<'_, '_, '_, S> {
    ghost text = { λ l. whole_text (lines_of (laid (rows_of l.sheet.now) (S.Source.cells l.source.now) (pieces_of l.pieces.now) l.covered)) };

    ghost longest = { λ l. length (whole_text (lines_of (laid (rows_of l.sheet.now) (S.Source.cells l.source.now) (pieces_of l.pieces.now) l.covered))) };

    fn most(&self) -> Option<usize> {
        if self.pieces.len() > 65535 {
            return None;
        }
        let rest = self.source.len().saturating_sub(self.covered);
        Some(self.most_of_pieces() + 2 * rest + 79)
    }

    fn write<W: Sink>(&self, out: &mut W) {
        out.text(b"path,word,place,width,bytes\n");
        self.put_pieces(out);
        self.put_rest(out);
        out.text(b"\n");
    }
}

// What is told of a refusal.
#[derive(Clone, Copy)]
pub(crate) struct Refused {
    pub told: Told,
}

impl Text for Refused {
    ghost text = { λ r. whole_text (lines_of (fault r.told)) };

    ghost longest = { λ r. 200 };

    fn most(&self) -> Option<usize> {
        None
    }

    fn write<W: Sink>(&self, out: &mut W) {
        out.text(b"fault,line,row,place,pieces,lost,layers\n");
        put_told(out, self.told);
        out.text(b"\n");
    }
}
