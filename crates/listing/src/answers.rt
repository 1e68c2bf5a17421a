// Answers of calls in print.
ghost use Rattle.std.specs.Prelude.{ℕ, List, length, map};
ghost use Rattle.reading.specs.Calls.{said};
ghost use Rattle.listing.specs.Lines.{whole_text};
ghost use Rattle.listing.specs.Said.{numbers_text, refused_text, said_text};

use crate::rows::put_told;
use line::Text;
use line::sink::Sink;
use reading::Answer;
use told::Told;

// A line for each of the answers.
#[derive(Clone, Copy)]
pub(crate) struct Answers<'a> {
    pub answers: &'a [Answer],
}

// Writes a word and numbers.
fn put_numbers<W: Sink>(out: &mut W, word: &[u8], numbers: &[u64])
    ensures { W.Sink.took out.old (numbers_text word.now numbers.now) out.new }
{
    out.text(word);
    for n in numbers {
        out.text(b",");
        out.number(*n);
    }
}

// Writes a refusal.
fn put_fault<W: Sink>(out: &mut W, told: Told)
    ensures { W.Sink.took out.old (refused_text told) out.new }
{
    out.text(b"fault,");
    put_told(out, told);
}

// Writes an answer.
fn put_answer<W: Sink>(out: &mut W, answer: &Answer)
    ensures { W.Sink.took out.old (said_text (said answer.now)) out.new }
{
    match *answer {
        Answer::Laid(cover) => {
            put_numbers(out, b"laid", &[cover.pieces as u64, cover.width as u64]);
        }
        Answer::Found(found) => {
            let numbers = [
                u64::from(found.row),
                u64::from(found.place),
                u64::from(found.width),
            ];
            put_numbers(out, b"found", &numbers);
        }
        Answer::Put => out.text(b"put"),
        Answer::Lifted => out.text(b"lifted"),
        Answer::NotLaid(refusal) => put_fault(out, Told::from(refusal)),
        Answer::NotFound(refusal) => put_fault(out, Told::from(refusal)),
        Answer::NotPut(refusal) => put_fault(out, Told::from(refusal)),
    }
}

impl Text for Answers<'_> {
    ghost text = { λ a. whole_text (map said_text (map said a.answers.now)) };

    ghost longest = { λ a. length (whole_text (map said_text (map said a.answers.now))) };

    fn most(&self) -> Option<usize> {
        None
    }

    fn write<W: Sink>(&self, out: &mut W) {
        for answer in self.answers {
            put_answer(out, answer);
            out.text(b"\n");
        }
    }
}
