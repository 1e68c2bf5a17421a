// Numbers: sums and products, and what the cells of a piece write.
#![tactic(auto)]

ghost use Rattle.std.specs.Prelude.{◌≡◌, ◌+◌, ◌*◌, ◌≤◌, Err, MatchOption};
ghost use Rattle.meaning.specs.Terms.{piece_of};
ghost use Rattle.meaning.specs.Values.{content, limited};
ghost use Rattle.meaning.specs.declared.fault.EvalFault.TheVariants as faults;
ghost use Rattle.content.specs.Content.{value_of, truth_of};

use cells::source::Source;
use meaning::EvalFault;
use path::Piece;
use sheet_text::LIMIT;

// The number, if there is one and it is not above the limit.
fn within(n: Option<u64>) -> Result<u64, EvalFault>
    ensures { MatchOption n (result ≡ Err faults.Limit) (λ m. result ≡ limited m) }
{
    n.filter(|m| *m <= LIMIT).ok_or(EvalFault::Limit)
}

/// The sum of two numbers.
pub fn sum(a: u64, b: u64) -> Result<u64, EvalFault>
    ensures { result ≡ limited (a + b) }
{
    within(a.checked_add(b))
}

/// The product of two numbers.
pub fn product(a: u64, b: u64) -> Result<u64, EvalFault>
    ensures { result ≡ limited (a * b) }
{
    within(a.checked_mul(b))
}

// The bytes of a piece as an unsigned number, most significant first: at most 8, so it fits.
fn digits<S: Source>(source: &S, piece: &Piece) -> Result<u64, EvalFault>
    ensures { result ≡ content (S.Source.cells source.now) (piece_of piece.now) }
{
    let place = usize::from(piece.place);
    let mut n = 0;
    // A source has no slice to go over: it is read place by place.
    for k in place..place + usize::from(piece.width) {
        n = n * 256 + u64::from(source.read(k)?);
    }
    Ok(n)
}

/// The number that the cells of a piece write, if it is not above the limit.
pub fn value_of<S: Source>(source: &S, piece: &Piece) -> Result<u64, EvalFault>
    ensures { result ≡ value_of (S.Source.cells source.now) piece.now }
{
    within(Some(digits(source, piece)?))
}

/// Whether the cells of a piece write another number than 0.
pub fn is_true<S: Source>(source: &S, piece: &Piece) -> Result<bool, EvalFault>
    ensures { result ≡ truth_of (S.Source.cells source.now) piece.now }
{
    Ok(digits(source, piece)? != 0)
}
