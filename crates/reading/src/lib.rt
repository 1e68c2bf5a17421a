// The calls: laying a sheet over a message, finding, showing and putting its pieces, and runs of
// such calls.
#![tactic(auto)]

ghost use Rattle.std.specs.Prelude.{◌≡◌, None};

mod answers;
mod finding;
mod laying;
mod putting;
mod refusals;
mod running;
#[cfg(test)]
mod tests;

pub use answers::{Answer, Call, Cover, Found};
pub use finding::{find, show};
pub use laying::{lay, lift};
pub use putting::put;
pub use refusals::{FindRefusal, LayRefusal, PutRefusal, ShowRefusal};
pub use running::{Session, lay_then_run_afresh, run};
use std::marker::Model;

/// Whether a sheet is laid, and how many pieces were laid then. It is neither copied nor cloned:
/// each call is handed the one that there is.
#[derive(Drop)]
pub struct Laid {
    pieces: Option<usize>,
}

impl Model for Laid {
    ghost use Rattle.std.specs.Prelude.{ℕ, Option};

    ghost Value = { Option ℕ };

    ghost view = { λ l. l.pieces };
}

impl Laid {
    /// No sheet is laid.
    pub fn nothing() -> Laid
        ensures { result ≡ None }
    {
        Laid { pieces: None }
    }
}
