// A store over lent units, each of which is a few bytes. No more units count than make 65,535 cells.
ghost use Rattle.std.specs.Prelude.{◌≡◌, ℕ, ◌<◌, List, [], ◌∷◌, slice_index, slice_set};
ghost use Rattle.cells.specs.declared.cell.Cell.{Cell};
ghost use Rattle.cells.specs.Lent.{UnitLaws};
ghost use Rattle.cells.specs.Laws.{lent_lawful, lent_whole};

use crate::cell::ReadFault;
use crate::source::{Source, Store};

/// What can be lent to a store. The module is private: no other crate asks a unit for a byte that it lacks.
pub trait Unit: Copy + Drop {
    // the bytes of a unit, in order
    ghost bytes: { Self → List ℕ };

    // how many they are
    ghost WIDTH: { ℕ };

    const WIDTH: usize;

    // what lent units mean
    ghost cells: { List Self → List Cell };

    // the units that are lent and are no part of the message
    ghost spares: { List Self → List Cell };

    // what each `impl` must prove
    ghost laws: { UnitLaws bytes WIDTH cells spares };

    /// Byte i.
    fn byte(self, i: usize) -> u8
        requires { i < WIDTH }
        ensures { result ≡ slice_index (bytes self) i };

    /// The unit with b for byte i.
    fn with_byte(self, i: usize, b: u8) -> Self
        requires { i < WIDTH }
        ensures { bytes result ≡ slice_set (bytes self) i b };
}

#[derive(Drop)]
pub struct Lent<'a, U: Unit> {
    units: &'a mut [U],
}

impl<'a, U: Unit> Lent<'a, U> {
    pub fn new(units: &'a mut [U]) -> Self
        ensures value { result.units.now ≡ units.old }
        ensures fixed { result.units.ghost_name ≡ units.entry.ghost_name }
    {
        Lent { units }
    }
}

impl<'a, U: Unit> Source for Lent<'a, U> {
    ghost cells = { λ s. U.cells s.units.now };

    ghost lawful = { λ s. lent_lawful U.laws s.units.now };

    fn len(&self) -> usize {
        (65535 / U::WIDTH).min(self.units.len()) * U::WIDTH
    }

    fn read(&self, k: usize) -> Result<u8, ReadFault> {
        if k >= self.len() {
            return Err(ReadFault::PastEnd(k));
        }
        Ok(self.units[k / U::WIDTH].byte(k % U::WIDTH))
    }
}

impl<'a, U: Unit> Store for Lent<'a, U> {
    ghost spares = { λ s. U.spares s.units.now };

    ghost fixed = { λ s. s.units.ghost_name ∷ [] };

    ghost whole = { λ s. lent_whole U.laws s.units.now };

    fn write(&mut self, k: usize, b: u8) -> Result<u8, ReadFault> {
        if k >= self.len() {
            return Err(ReadFault::PastEnd(k));
        }
        let unit = &mut self.units[k / U::WIDTH];
        let old = unit.byte(k % U::WIDTH);
        *unit = unit.with_byte(k % U::WIDTH, b);
        Ok(old)
    }
}
