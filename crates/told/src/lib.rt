// How a refusal is told: its number, and the values that it carries.
#![tactic(auto)]

ghost use Rattle.std.specs.Prelude.{◌≡◌};
ghost use Rattle.told.specs.Answers.{bare};

/// A value that a refusal lacks is `None`. The number is no enum, since it is what a listing prints: each
/// crate that refuses has an error enum of its own, and tells it by `From`.
#[derive(Clone, Copy)]
pub struct Told {
    pub number: u8,
    /// the line of a format sheet
    pub line: Option<u64>,
    /// the row in front
    pub row: Option<u64>,
    /// a place in the message, or in the text of a capture
    pub place: Option<u64>,
    /// how many pieces were placed
    pub pieces: Option<u64>,
    /// the place that a lost cell's mark carries
    pub lost: Option<u64>,
    /// the layers that a lost cell's mark has come through
    pub layers: Option<u64>,
}

impl Told {
    /// A refusal that carries nothing.
    pub fn bare(number: u8) -> Told
        ensures { result ≡ bare number }
    {
        Told {
            number,
            line: None,
            row: None,
            place: None,
            pieces: None,
            lost: None,
            layers: None,
        }
    }
}
