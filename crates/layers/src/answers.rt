// What every layer does with the answer from below.
ghost use Rattle.std.specs.Prelude.{◌≡◌, ℕ, List};
ghost use Rattle.std.specs.List.{slice_get};
ghost use Rattle.std.specs.Option.{option_map};
ghost use Rattle.cells.specs.declared.cell.Cell.{Cell};
ghost use Rattle.cells.specs.Cells.{Answers};
ghost use Rattle.layers.specs.Layers.{passed_up, aged};

use cells::cell::{Mark, ReadFault};

/// The answer of a layer at k, from the answer of the cell below: a mark has come through one
/// more layer, and a missing cell is told by the layer's own place.
pub fn passed_up(k: usize, answer: Result<u8, ReadFault>) -> Result<u8, ReadFault>
    ensures is { result ≡ passed_up k answer }
    ensures layer { (below layer : List Cell) (at : ℕ) → slice_get layer k ≡ option_map aged (slice_get below at) → Answers below at answer → Answers layer k result }
{
    answer.map_err(|fault| match fault {
        ReadFault::PastEnd(_) => ReadFault::PastEnd(k),
        ReadFault::LostCell(mark) => ReadFault::LostCell(Mark {
            place: mark.place,
            layers: mark.layers.saturating_add(1),
        }),
    })
}
