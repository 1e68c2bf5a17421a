// The open rows of a walk, in a list.
ghost use Rattle.std.specs.Prelude.{◌≡◌, ◌+◌, ◌<◌, [], ◌∷◌, length, MatchOption};
ghost use Rattle.list.specs.Contents.{room};
ghost use Rattle.walk.specs.Frames.{frame_of, open_of};

use list::BoundedList;
use opened::Opened;

// An open row. Each keeps where it stands whole: its path and the records that are open there.
#[derive(Clone, Copy)]
pub(crate) enum Frame {
    // the row in front, not opened yet
    Front {
        here: Opened,
        row: usize,
    },
    // a record, itself the innermost of the open ones, and its next field
    Record {
        here: Opened,
        next: Option<usize>,
    },
    // an array: its element, the number of the next one, and how many there are
    Array {
        here: Opened,
        element: usize,
        index: u16,
        count: u16,
    },
}

// One open row more. It does not fill the list.
pub(crate) fn push(frames: &mut BoundedList<'_, Frame>, frame: Frame)
    requires free { length (open_of frames.now) + 1 < room frames.now }
    ensures open { open_of frames.new ≡ frame_of frame ∷ open_of frames.old }
    ensures free { length (open_of frames.new) < room frames.new }
    ensures room { room frames.new ≡ room frames.old }
{
    let _ = frames.push(frame);
}

// The innermost open row, taken off.
pub(crate) fn pop(frames: &mut BoundedList<'_, Frame>) -> Option<Frame>
    ensures open { MatchOption result ((open_of frames.old ≡ []) × (open_of frames.new ≡ []))
        (λ f. open_of frames.old ≡ frame_of f ∷ open_of frames.new) }
    ensures room { room frames.new ≡ room frames.old }
{
    frames.pop()
}
