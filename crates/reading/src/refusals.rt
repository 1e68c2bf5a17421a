// How the calls refuse.
ghost use Rattle.std.specs.Prelude.{◌≡◌};
ghost use Rattle.reading.specs.Refusals.{lay_refusal_told, find_told, show_told, put_told};

use cells::cell::ReadFault;
use meaning::LayFault;
use told::Told;

/// Why the row in front was refused, that row, the place reached and the number of pieces placed.
#[derive(Clone, Copy)]
pub struct LayRefusal {
    pub fault: LayFault,
    pub row: u16,
    pub place: usize,
    pub pieces: usize,
}

/// Why no piece is found.
#[derive(Clone, Copy)]
pub enum FindRefusal {
    NothingLaid,
    /// no kept piece has the path, or the text is no path
    NoPiece,
}

/// Why no bytes are shown.
#[derive(Clone, Copy)]
pub enum ShowRefusal {
    NothingLaid,
    NoPiece,
    /// the bytes end before the piece does: how many cells they are
    PastEnd(usize),
}

/// Why no bytes are put.
#[derive(Clone, Copy)]
pub enum PutRefusal {
    NothingLaid,
    NoPiece,
    /// not as many bytes as the piece is wide
    WrongWidth,
    /// the kept pieces are no reading of the changed bytes
    NoReading,
}

impl From<LayRefusal> for Told {
    ghost from_gives = { λ e r. r ≡ lay_refusal_told e };

    fn from(refusal: LayRefusal) -> Told {
        Told {
            row: Some(u64::from(refusal.row)),
            place: Some(refusal.place as u64),
            pieces: Some(refusal.pieces as u64),
            ..Told::from(refusal.fault)
        }
    }
}

impl From<FindRefusal> for Told {
    ghost from_gives = { λ e r. r ≡ find_told e };

    fn from(refusal: FindRefusal) -> Told {
        match refusal {
            FindRefusal::NothingLaid => Told::bare(21),
            FindRefusal::NoPiece => Told::bare(22),
        }
    }
}

impl From<ShowRefusal> for Told {
    ghost from_gives = { λ e r. r ≡ show_told e };

    fn from(refusal: ShowRefusal) -> Told {
        match refusal {
            ShowRefusal::NothingLaid => Told::bare(21),
            ShowRefusal::NoPiece => Told::bare(22),
            ShowRefusal::PastEnd(k) => Told::from(ReadFault::PastEnd(k)),
        }
    }
}

impl From<PutRefusal> for Told {
    ghost from_gives = { λ e r. r ≡ put_told e };

    fn from(refusal: PutRefusal) -> Told {
        match refusal {
            PutRefusal::NothingLaid => Told::bare(21),
            PutRefusal::NoPiece => Told::bare(22),
            PutRefusal::WrongWidth => Told::bare(23),
            PutRefusal::NoReading => Told::bare(24),
        }
    }
}

impl From<FindRefusal> for ShowRefusal {
    ghost from_gives = { λ e r. show_told r ≡ find_told e };

    fn from(refusal: FindRefusal) -> ShowRefusal {
        match refusal {
            FindRefusal::NothingLaid => ShowRefusal::NothingLaid,
            FindRefusal::NoPiece => ShowRefusal::NoPiece,
        }
    }
}

impl From<FindRefusal> for PutRefusal {
    ghost from_gives = { λ e r. put_told r ≡ find_told e };

    fn from(refusal: FindRefusal) -> PutRefusal {
        match refusal {
            FindRefusal::NothingLaid => PutRefusal::NothingLaid,
            FindRefusal::NoPiece => PutRefusal::NoPiece,
        }
    }
}
