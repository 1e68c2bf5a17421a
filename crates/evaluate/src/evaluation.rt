// What values are worked out over.
use opened::Opened;
use sheet::CheckedSheet;

/// The sheet, the message, and the records that are open. The pieces are handed in at each call,
/// since a list of them is always taken for writing; so that they stay as they were stands at each
/// call, too.
#[derive(Drop)]
pub struct Evaluation<'e, 't, 'r, M> {
    pub sheet: &'e CheckedSheet<'t, 'r>,
    pub message: &'e M,
    pub records: &'e Opened,
}
