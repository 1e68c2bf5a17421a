// Paths that grow by the steps of a location.
ghost use Rattle.std.specs.Prelude.{◌≡◌};
ghost use Rattle.sheet.specs.Fields.{name_in};
ghost use Rattle.path.specs.Meaning.{field, element, step_of};
ghost use Rattle.evaluate.specs.Reaches.{push, reach_of};

use path::{Element, Name, Path, Step};
use sheet::name_of;
use sheet_text::Column;

// One step more; none once no placed piece can have the path.
fn longer(reach: Option<Path>, step: Step) -> Option<Path>
    ensures { reach_of result ≡ push (reach_of reach) (step_of step) }
{
    reach?.child(step)
}

// One step more, into the field that a column names.
pub(crate) fn into_field(text: &[u8], name: Column, reach: Option<Path>) -> Option<Path>
    ensures { reach_of result ≡ push (reach_of reach) (field (name_in text.now name)) }
{
    longer(reach, Step::Field(Name::new(name_of(text, name))?))
}

// One step more, into an element.
pub(crate) fn into_element(i: u64, reach: Option<Path>) -> Option<Path>
    ensures { reach_of result ≡ push (reach_of reach) (element i) }
{
    longer(reach, Step::Index(Element::new(i)?))
}
