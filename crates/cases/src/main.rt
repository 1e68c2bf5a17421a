// Prints the listing of each input that the arguments name, and then of long inputs.
#![tactic(auto)]

use anyhow::Context;
use input::INPUT_MAX;
use line::Line;
use listing::{LISTING_MAX, PIECES_MAX, write_listing};
use path::Piece;
use sheet::{CheckedSheet, read_sheet};
use sheet_text::{MAX_ROWS, Row};
use std::io::Write;
use std::{env, fs};
use told::Told;

// The listing of an input, by a row table, a piece list and a buffer that are lent.
fn list_with<'a>(
    bytes: &[u8],
    table: &mut [Row],
    pieces: &mut [Piece],
    places: &'a mut [u8],
) -> anyhow::Result<Line<'a>> {
    let mut line = Line::new(places);
    write_listing(bytes, table, pieces, &mut line).context(
        "the listing is longer than its buffer",
    )?;
    Ok(line)
}

// The same with 256 rows and 512 pieces.
fn list_whole<'a>(bytes: &[u8], places: &'a mut [u8]) -> anyhow::Result<Line<'a>> {
    let mut table = [Row::BLANK; MAX_ROWS];
    let mut pieces = [Piece::blank(); PIECES_MAX];
    list_with(bytes, &mut table, &mut pieces, places)
}

const SHEET: &[u8] = b"row,word,name,one,two,three\n0,rec,-,-,-,-\n1,u8,-,-,-,-\n\n";

// A sheet of two rows and digits up to `count` bytes, and then a byte that is no digit.
fn long_input(rt: &HostRuntime, count: usize) -> anyhow::Result<Vec<u8>> {
    let mut bytes = SHEET.to_vec(rt.alloc())?;
    bytes.resize(count, b'a')?;
    bytes.push(b'!')?;
    Ok(bytes)
}

// The length of a long input's listing, and its first bytes.
fn show_long(rt: &HostRuntime, count: usize, places: &mut [u8]) -> anyhow::Result<()> {
    let bytes = long_input(rt, count)?;
    let line = list_whole(bytes.as_slice(), places)?;
    let text = line.as_bytes();
    let total = bytes.len();
    let length = text.len();
    println!(rt; "== {total} bytes: a listing of {length}")?;
    rt.stdout().write_all(&text[0..length.min(60)])?;
    if length > 60 {
        println!(rt; "..")?;
    }
    Ok(())
}

// The listing of a sheet of two rows, where the row table has so many places.
fn show_table(rt: &HostRuntime, table: &mut [Row], places: &mut [u8]) -> anyhow::Result<()> {
    let count = table.len();
    println!(rt; "== two rows, a table of {count}")?;
    let line = list_with(SHEET, table, &mut [Piece::blank(); 1], places)?;
    rt.stdout().write_all(line.as_bytes())?;
    Ok(())
}

// Fills the place of a sheet by rows that keep the rules, and then by none,
// which it refuses.
fn fill_twice<'t, 'r>(
    rt: &HostRuntime,
    sheet: &mut CheckedSheet<'t, 'r>,
    text: &'t [u8],
    rows: &'r [Row],
) -> anyhow::Result<()> {
    let first = sheet.len();
    println!(rt; "== a place for a sheet: at first {first} row")?;
    let filled = sheet.fill(text, rows).is_ok();
    let second = sheet.len();
    println!(rt; "filled: {filled}, {second} rows")?;
    if let Err(refusal) = sheet.fill(text, &rows[rows.len()..]) {
        let number = Told::from(refusal).number;
        let line = refusal.line;
        let third = sheet.len();
        println!(rt; "no rows: refused with {number}, line {line}; still {third} rows")?;
    }
    Ok(())
}

fn show_filling(rt: &HostRuntime) -> anyhow::Result<()> {
    let text = &SHEET[0..SHEET.len() - 1];
    let mut table = [Row::BLANK; 4];
    let Ok(count) = read_sheet(text, &mut table) else {
        return Ok(());
    };
    let rows = &table[..count.min(table.len())];
    fill_twice(rt, &mut CheckedSheet::built_in(), text, rows)
}

const TRACE: &[u8] = b"row,word,name,one,two,three
0,rec,-,1,-,-
1,fld,n,3,2,-
2,fld,pts,4,-,-
3,u8,-,-,-,-
4,arr,-,8,5,-
5,loc,-,6,-,-
6,from,-,0,7,-
7,dot,n,-,-,-
8,i16,-,-,-,-

";

// The listing of a trace, where the piece list has so many places.
fn show_pieces(
    rt: &HostRuntime,
    capture: &[u8],
    pieces: &mut [Piece],
    places: &mut [u8],
) -> anyhow::Result<()> {
    let count = pieces.len();
    println!(rt; "== a trace, a list of {count}")?;
    let mut bytes = TRACE.to_vec(rt.alloc())?;
    bytes.extend_from_slice(capture)?;
    let mut table = [Row::BLANK; MAX_ROWS];
    let line = list_with(bytes.as_slice(), &mut table, pieces, places)?;
    rt.stdout().write_all(line.as_bytes())?;
    Ok(())
}

// Short piece lists: a message that fits or does not, and one that ends early.
fn show_lists(rt: &HostRuntime, places: &mut [u8]) -> anyhow::Result<()> {
    let mut pieces = [Piece::blank(); 3];
    for count in 0..4 {
        show_pieces(rt, b"02ffec000a7f", &mut pieces[..count], places)?;
    }
    show_pieces(rt, b"02ff", &mut pieces[..1], places)
}

fn show_tables(rt: &HostRuntime, places: &mut [u8]) -> anyhow::Result<()> {
    show_table(rt, &mut [], places)?;
    show_table(rt, &mut [Row::BLANK; 1], places)?;
    show_table(rt, &mut [Row::BLANK; 2], places)?;
    show_table(rt, &mut [Row::BLANK; 3], places)
}

fn show_file(rt: &HostRuntime, name: &str, places: &mut [u8]) -> anyhow::Result<()> {
    let bytes = fs::read(rt, name)?;
    println!(rt; "== {name}")?;
    let line = list_whole(bytes.as_slice(), places)?;
    rt.stdout().write_all(line.as_bytes())?;
    Ok(())
}

fn run(rt: &HostRuntime) -> anyhow::Result<()> {
    let mut places = vec![in rt.alloc(); 0u8; LISTING_MAX]?;
    for name in env::args(rt)?.skip(1) {
        show_file(rt, name.as_str(), places.as_mut_slice())?;
    }
    for count in INPUT_MAX - 2..INPUT_MAX + 2 {
        show_long(rt, count, places.as_mut_slice())?;
    }
    show_tables(rt, places.as_mut_slice())?;
    show_lists(rt, places.as_mut_slice())?;
    show_filling(rt)
}

fn main(rt: HostRuntime) -> anyhow::Result<()> {
    run(&rt)
}
