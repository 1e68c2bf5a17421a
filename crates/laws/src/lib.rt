// The laws of readings. The functions do nothing; that they are proved says that the laws hold.
#![tactic(auto)]

ghost use Rattle.std.specs.Prelude.{ℕ, List};
ghost use Rattle.sheet_text.specs.declared.row.Row.{Row};
ghost use Rattle.laws.specs.Laws.{AcceptsReadings, CoveredCellsDecide, PathsDiffer};
ghost use Rattle.meaning.specs.Readings.{OneReading};
ghost use Rattle.laws.specs.Laws.{RowsUnfold, TypesShallow};
ghost use Rattle.laws.specs.Quiet.{QuietPasses};
ghost use Rattle.laws.specs.Rereads.{RereadDecides};
ghost use Rattle.laws.specs.Stops.{PathsDifferAhead};
ghost use Rattle.laws.specs.Laws.{StopsDecide};
ghost use Rattle.laws.specs.Locations.{LocationsName};

/// Of all lists of pieces at most one is a reading of a message by a sheet.
pub fn one_reading()
    ensures { (text : List ℕ) (rows : List Row) → OneReading text rows }
{}

/// The matcher accepts exactly when a reading exists and fits the list, and then with that reading.
pub fn accepts_readings()
    ensures { AcceptsReadings }
{}

/// The matcher, told to place nothing but some pieces, places them all exactly if they are a
/// reading.
pub fn rereads_decide()
    ensures { RereadDecides }
{}

/// A reading is decided by the cells that it covers.
pub fn covered_cells_decide()
    ensures { CoveredCellsDecide }
{}

/// No two pieces of a reading by a checked sheet share a path.
pub fn paths_differ()
    ensures { PathsDiffer }
{}

/// What a row of a checked sheet stands for is built from what its parts stand for.
pub fn rows_unfold()
    ensures { RowsUnfold }
{}

/// No type of a checked sheet nests more than eight deep.
pub fn types_shallow()
    ensures { TypesShallow }
{}

/// The matcher refuses exactly where laying stops, for that reason, at that row and with those
/// pieces.
pub fn stops_decide()
    ensures { StopsDecide }
{}

/// No two pieces that are placed where the laying of a checked sheet stops share a path.
pub fn paths_differ_ahead()
    ensures { PathsDifferAhead }
{}

/// A location names the piece placed ahead that has its path, and no other: in readings by a
/// checked sheet, and where its laying stops.
pub fn locations_name()
    ensures { LocationsName }
{}

/// What is quiet places nothing, at whatever path.
pub fn quiet_passes()
    ensures { QuietPasses }
{}
