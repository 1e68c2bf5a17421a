// One cell of a message, and how reading, writing and opening a capture refuse.
ghost use Rattle.std.specs.Prelude.{◌≡◌};
ghost use Rattle.cells.specs.Refusals.{read_told, capture_told};

use told::Told;

/// The mark of a lost cell: the place that the cell had in its capture, and the number of layers
/// that the mark has come through.
#[derive(Clone, Copy)]
pub struct Mark {
    pub place: u16,
    pub layers: u8,
}

/// One cell of a message. An enum of its own, and no Result: a lost cell is part of a message, and no failure.
#[derive(Clone, Copy)]
pub enum Cell {
    Byte(u8),
    Lost(Mark),
}

#[derive(Clone, Copy)]
pub enum ReadFault {
    // there is no such cell: the place that was asked for
    PastEnd(usize),
    LostCell(Mark),
}

/// A pair of a capture that is bad or cut: the place of its first character.
#[derive(Clone, Copy)]
pub struct CaptureFault {
    pub place: usize,
}

impl From<ReadFault> for Told {
    ghost from_gives = { λ e r. r ≡ read_told e };

    fn from(fault: ReadFault) -> Told {
        match fault {
            ReadFault::PastEnd(k) => Told {
                place: Some(k as u64),
                ..Told::bare(31)
            },
            ReadFault::LostCell(mark) => Told {
                lost: Some(u64::from(mark.place)),
                layers: Some(u64::from(mark.layers)),
                ..Told::bare(33)
            },
        }
    }
}

impl From<CaptureFault> for Told {
    ghost from_gives = { λ e r. r ≡ capture_told e };

    fn from(fault: CaptureFault) -> Told {
        Told {
            place: Some(fault.place as u64),
            ..Told::bare(32)
        }
    }
}
