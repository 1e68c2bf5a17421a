// What the calls are asked, and what they answer.
use crate::refusals::{FindRefusal, LayRefusal, PutRefusal};

/// A reading that was laid: the number of its pieces, and their total width.
#[derive(Clone, Copy)]
pub struct Cover {
    pub pieces: usize,
    pub width: usize,
}

/// A piece that was found.
#[derive(Clone, Copy)]
pub struct Found {
    pub row: u16,
    pub place: u16,
    pub width: u8,
}

/// A call of a run. Paths are in print.
#[derive(Clone, Copy)]
pub enum Call<'c> {
    Lay,
    Find(&'c [u8]),
    /// the path, and the new bytes
    Put(&'c [u8], &'c [u8]),
    Lift,
}

/// Its answer.
#[derive(Clone, Copy)]
pub enum Answer {
    Laid(Cover),
    NotLaid(LayRefusal),
    Found(Found),
    NotFound(FindRefusal),
    Put,
    NotPut(PutRefusal),
    Lifted,
}
