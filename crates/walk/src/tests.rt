// Walks over a few sheets.
use crate::comparing::Comparing;
use crate::recording::Recording;
use crate::{Halt, walk};
use cells::bytes::Bytes;
use evaluate::message::BySheet;
use list::BoundedList;
use meaning::LayFault;
use path::Piece;
use sheet::{CheckedSheet, read_sheet};
use sheet_text::Row;

const EXAMPLE: &[u8] = b"row,word,name,one,two,three
0,rec,-,1,-,-
1,fld,n,3,2,-
2,fld,pts,4,-,-
3,u8,-,-,-,-
4,arr,-,8,5,-
5,loc,-,6,-,-
6,from,-,0,7,-
7,dot,n,-,-,-
8,i16,-,-,-,-
";

// Eight arrays of 65,535 elements, one in the other, of an empty record.
const NEST: &[u8] = b"row,word,name,one,two,three
0,arr,-,1,9,-
1,arr,-,2,9,-
2,arr,-,3,9,-
3,arr,-,4,9,-
4,arr,-,5,9,-
5,arr,-,6,9,-
6,arr,-,7,9,-
7,arr,-,8,9,-
8,rec,-,-,-,-
9,lit,-,65535,-,-
";

// A grid whose sizes stand ahead of it.
const GRID: &[u8] = b"row,word,name,one,two,three
0,rec,-,1,-,-
1,fld,c0,5,2,-
2,fld,c1,5,3,-
3,fld,c2,5,4,-
4,fld,data,6,-,-
5,u16,-,-,-,-
6,arr,-,7,10,-
7,arr,-,8,13,-
8,arr,-,9,16,-
9,i16,-,-,-,-
10,loc,-,11,-,-
11,from,-,0,12,-
12,dot,c0,-,-,-
13,loc,-,14,-,-
14,from,-,0,15,-
15,dot,c1,-,-,-
16,loc,-,17,-,-
17,from,-,0,18,-
18,dot,c2,-,-,-
";

// Whether pieces are recorded, or compared with so many kept ones.
#[derive(Clone, Copy)]
enum Way {
    Records,
    Compares(usize),
}

// The place reached, or what stops the walk over the bytes by the sheet of a text.
fn walk_text(
    text: &[u8],
    bytes: &mut [u8],
    way: &Way,
    pieces: &mut BoundedList<'_, Piece>,
) -> Option<Result<usize, Halt>> {
    let mut table = [Row::BLANK; 20];
    let Ok(count) = read_sheet(text, &mut table) else {
        return None;
    };
    let mut sheet = CheckedSheet::built_in();
    if sheet.fill(text, &table[..count.min(20)]).is_err() {
        return None;
    }
    let source = Bytes::new(bytes);
    let message = BySheet {
        sheet: &sheet,
        source: &source,
    };
    Some(match way {
        Way::Records => walk(&sheet, &message, &Recording::of(&message), pieces),
        Way::Compares(kept) => { walk(&sheet, &message, &Comparing::of(&message, *kept), pieces) }
    })
}

#[test]
fn records_and_compares(rt: HostRuntime) {
    let mut places = [Piece::blank(); 4];
    let mut pieces = BoundedList::new(&mut places);
    let mut bytes = [2, 255, 236, 0, 10, 127];
    let first = walk_text(EXAMPLE, &mut bytes, &Way::Records, &mut pieces);
    assert!(rt; matches!(first, Some(Ok(5))));
    assert_eq!(rt; pieces.len(), 3);
    bytes[1] = 7;
    let same = walk_text(EXAMPLE, &mut bytes, &Way::Compares(3), &mut pieces);
    assert!(rt; matches!(same, Some(Ok(5))));
    bytes[0] = 1;
    let fewer = walk_text(EXAMPLE, &mut bytes, &Way::Compares(3), &mut pieces);
    assert!(rt; matches!(fewer, Some(Ok(3))));
    assert_eq!(rt; pieces.len(), 2);
}

#[test]
fn stops_at_a_full_list_and_at_the_end(rt: HostRuntime) {
    let mut places = [Piece::blank(); 2];
    let mut pieces = BoundedList::new(&mut places);
    let mut bytes = [2, 255, 236, 0, 10, 127];
    let full = walk_text(EXAMPLE, &mut bytes, &Way::Records, &mut pieces);
    assert!(rt;
        matches!(
            full,
            Some(Err(Halt {
                fault: LayFault::Full,
                row: 8,
                place: 3
            }))
        )
    );
    let short = walk_text(EXAMPLE, &mut bytes[..2], &Way::Records, &mut pieces);
    assert!(rt;
        matches!(
            short,
            Some(Err(Halt {
                fault: LayFault::PastEnd,
                row: 8,
                place: 1
            }))
        )
    );
    assert_eq!(rt; pieces.len(), 1);
}

#[test]
fn ends_at_once_where_nothing_is_placed(rt: HostRuntime) {
    let mut pieces = BoundedList::new(&mut []);
    let ends = walk_text(NEST, &mut [], &Way::Records, &mut pieces);
    assert!(rt; matches!(ends, Some(Ok(0))));
}

#[test]
fn ends_soon_where_nothing_more_is_placed(rt: HostRuntime) {
    let mut places = [Piece::blank(); 3];
    let mut pieces = BoundedList::new(&mut places);
    let ends = walk_text(
        GRID,
        &mut [255, 255, 255, 255, 0, 0],
        &Way::Records,
        &mut pieces,
    );
    assert!(rt; matches!(ends, Some(Ok(6))));
    assert_eq!(rt; pieces.len(), 3);
}
