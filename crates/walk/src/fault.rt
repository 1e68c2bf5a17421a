// Where a walk stops.
use meaning::LayFault;

/// The refusal, the row in front and the place reached.
#[derive(Clone, Copy)]
pub struct Halt {
    pub fault: LayFault,
    pub row: u16,
    pub place: usize,
}
