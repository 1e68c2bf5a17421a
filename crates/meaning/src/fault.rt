// Why a number, a truth or a location has no value, and why the row in front is refused.
ghost use Rattle.std.specs.Prelude.{◌≡◌};
ghost use Rattle.meaning.specs.Refusals.{from_read, eval_told, fault_told};
ghost use Rattle.meaning.specs.declared.fault.LayFault.TheVariants.{Eval};

use cells::cell::{Mark, ReadFault};
use told::Told;

#[derive(Clone, Copy)]
pub enum EvalFault {
    // a location climbs too far or names no placed piece, a cell is past the end, or the row is of
    // another kind
    NoValue,
    // it passes the limit
    Limit,
    // the piece is of another word than the one that is needed
    Word,
    // a cell that is consulted is lost
    Lost(Mark),
}

/// Why the row in front is refused.
#[derive(Clone, Copy)]
pub enum LayFault {
    /// a base piece would pass the end
    PastEnd,
    /// void is opened
    Void,
    /// the list has no place for the next piece
    Full,
    /// the next piece is not the next of the kept ones
    NotKept,
    /// an array cannot have as many elements as its number says
    TooMany,
    /// a number or a truth that is needed has no value
    Eval(EvalFault),
}

impl From<ReadFault> for EvalFault {
    ghost from_gives = { λ e r. r ≡ from_read e };

    fn from(e: ReadFault) -> EvalFault {
        match e {
            ReadFault::PastEnd(_) => EvalFault::NoValue,
            ReadFault::LostCell(mark) => EvalFault::Lost(mark),
        }
    }
}

impl From<EvalFault> for Told {
    ghost from_gives = { λ e r. r ≡ eval_told e };

    fn from(e: EvalFault) -> Told {
        match e {
            EvalFault::NoValue | EvalFault::Limit | EvalFault::Word => Told::bare(12),
            EvalFault::Lost(mark) => Told {
                number: 16,
                ..Told::from(ReadFault::LostCell(mark))
            },
        }
    }
}

impl From<EvalFault> for LayFault {
    ghost from_gives = { λ e r. r ≡ Eval e };

    fn from(fault: EvalFault) -> LayFault {
        LayFault::Eval(fault)
    }
}

impl From<LayFault> for Told {
    ghost from_gives = { λ e r. r ≡ fault_told e };

    fn from(e: LayFault) -> Told {
        match e {
            LayFault::PastEnd => Told::bare(11),
            LayFault::Void => Told::bare(13),
            LayFault::Full => Told::bare(14),
            LayFault::NotKept => Told::bare(24),
            LayFault::TooMany => Told::bare(15),
            LayFault::Eval(e) => Told::from(e),
        }
    }
}
