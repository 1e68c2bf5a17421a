// The next part of an open record or array.
ghost use Rattle.std.specs.Prelude.{◌≡◌, ◌+◌, ◌-◌, ◌<◌, ◌≤◌, ◌∷◌, ◌++◌, [], length, Some};
ghost use Rattle.list.specs.Contents.{room};
ghost use Rattle.path.specs.Meaning.{path_of, step_of, field, element};
ghost use Rattle.opened.specs.Opens.{records_of};
ghost use Rattle.sheet.specs.Fields.{name_in};
ghost use Rattle.sheet.specs.Sheets.{rows_of, text_of};
ghost use Rattle.sheet_text.specs.Plain.{ProperName};
ghost use Rattle.walk.specs.Frames.{in_record, in_array, open_of};
ghost use Rattle.walk.specs.Turns.{AllShallow};
ghost use Rattle.walk.specs.Walks.{Parts};

use crate::frames::{Frame, push};
use evaluate::rows::{ref_in, row_at};
use list::BoundedList;
use opened::Opened;
use path::{Element, Name, Step};
use sheet::{CheckedSheet, name_of, target};
use sheet_text::Column;

// One step further down, where the path has room for it.
fn below(here: Opened, step: Step) -> Opened
    requires { length (path_of here.path) < 8 }
    ensures path { path_of result.path ≡ path_of here.path ++ step_of step ∷ [] }
    ensures records { records_of result ≡ records_of here }
{
    let Some(there) = here.child(step) else {
        unreachable!();
    };
    there
}

// Into the field that a column names.
fn field_step(text: &[u8], name: Column) -> Step
    requires { ProperName (name_in text.now name) }
    ensures { step_of result ≡ field (name_in text.now name) }
{
    let Some(name) = Name::new(name_of(text, name)) else {
        unreachable!();
    };
    Step::Field(name)
}

// Into an element.
pub(crate) fn element_step(index: u16) -> Step
    requires { index < 65535 }
    ensures { step_of result ≡ element index }
{
    let Some(number) = Element::new(u64::from(index)) else {
        unreachable!();
    };
    Step::Index(number)
}

// The next field of a record, and the record behind it; or nothing more of it.
pub(crate) fn next_field(
    sheet: &CheckedSheet<'_, '_>,
    frames: &mut BoundedList<'_, Frame>,
    here: Opened,
    next: Option<usize>,
)
    requires shallow { AllShallow (text_of sheet.now) (rows_of sheet.now) (in_record (path_of here.path) (records_of here) next ∷ open_of frames.now) }
    requires room { 10 ≤ room frames.now }
    ensures parts { Parts (text_of sheet.now) (rows_of sheet.now) (in_record (path_of here.path) (records_of here) next ∷ open_of frames.old) (open_of frames.new) }
    ensures room { room frames.new ≡ room frames.old }
{
    let Some(row) = next else {
        return;
    };
    let r = row_at(sheet, row);
    let there = below(here, field_step(sheet.text(), r.name));
    push(
        frames,
        Frame::Record {
            here,
            next: ref_in(r.two),
        },
    );
    push(
        frames,
        Frame::Front {
            here: there,
            row: target(r.one),
        },
    );
}

// The next element of an array, and the array behind it; or nothing more of it.
pub(crate) fn next_element(
    sheet: &CheckedSheet<'_, '_>,
    frames: &mut BoundedList<'_, Frame>,
    here: Opened,
    element: usize,
    index: u16,
    count: u16,
)
    requires shallow { AllShallow (text_of sheet.now) (rows_of sheet.now) (in_array (path_of here.path) (records_of here) element index (count - index) ∷ open_of frames.now) }
    requires room { 10 ≤ room frames.now }
    ensures parts { Parts (text_of sheet.now) (rows_of sheet.now) (in_array (path_of here.path) (records_of here) element index (count - index) ∷ open_of frames.old) (open_of frames.new) }
    ensures room { room frames.new ≡ room frames.old }
{
    if index >= count {
        return;
    }
    let there = below(here, element_step(index));
    push(
        frames,
        Frame::Array {
            here,
            element,
            index: index + 1,
            count,
        },
    );
    push(
        frames,
        Frame::Front {
            here: there,
            row: element,
        },
    );
}
