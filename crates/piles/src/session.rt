// A message with a lost cell is laid through a pile, and calls are made on a store through another.
use anyhow::Context;
use cells::bytes::Bytes;
use cells::capture::Capture;
use cells::source::{Source, Store};
use layers::join::Join;
use layers::swap::Swap;
use layers::window::Window;
use line::Line;
use listing::write_answers;
use path::Piece;
use reading::{Answer, Call, lay_then_run_afresh};
use sheet::{CheckedSheet, read_sheet};
use sheet_text::Row;
use std::io::Write;

/// A count, and as many points of two bytes.
const TRACE: &[u8] = b"row,word,name,one,two,three
0,rec,-,1,-,-
1,fld,n,3,2,-
2,fld,pts,4,-,-
3,u8,-,-,-,-
4,arr,-,8,5,-
5,loc,-,6,-,-
6,from,-,0,7,-
7,dot,n,-,-,-
8,i16,-,-,-,-
";

/// The answers of a session have no more bytes.
const ANSWERS_MAX: usize = 2048;

// Lays the message, makes the calls on the store, and prints a line for each answer.
fn print_session<R: Source, S: Store>(
    rt: &HostRuntime,
    sheet: &CheckedSheet<'_, '_>,
    message: &R,
    store: &mut S,
    calls: &[Call<'_>],
) -> anyhow::Result<()> {
    let mut places = [Piece::blank(); 4];
    let mut pieces = [Piece::blank(); 4];
    let mut answers = [Answer::Lifted; 16];
    let session = lay_then_run_afresh(
        sheet,
        message,
        &mut places,
        store,
        &mut pieces,
        calls,
        &mut answers,
    );
    let laying = match session.laying {
        Ok(cover) => Answer::Laid(cover),
        Err(refusal) => Answer::NotLaid(refusal),
    };
    let mut bytes = [0u8; ANSWERS_MAX];
    let mut line = Line::new(&mut bytes);
    write_answers(&[laying], &mut line).context("the answer is too long")?;
    write_answers(&answers[..session.calls], &mut line).context("the answers are too long")?;
    rt.stdout().write_all(line.as_bytes())?;
    Ok(())
}

// Calls on a store, and what becomes of the bytes below.
fn lost_count(
    rt: &HostRuntime,
    sheet: &CheckedSheet<'_, '_>,
    raw: &mut [u8],
) -> anyhow::Result<()> {
    println!(rt; "a window (3, 3) over a swap over the capture 1122--33ecff is laid;")?;
    println!(rt; "then calls on a window (1, 6) over a swap over bytes")?;
    let capture = Capture::open(b"1122--33ecff").ok().context("no capture")?;
    let calls = [
        Call::Find(b"root.n"),
        Call::Lay,
        Call::Find(b"root.pts[1]"),
        Call::Put(b"root.pts[1]", b"\x12\x34"),
        Call::Put(b"root.n", b"\x01"),
        Call::Put(b"root.n", b""),
        Call::Find(b"root.pts[2]"),
        Call::Lift,
        Call::Put(b"root.n", b"\x02"),
        Call::Lay,
    ];
    print_session(
        rt,
        sheet,
        &Window::new(Swap::new(capture), 3, 3),
        &mut Window::new(Swap::new(Bytes::new(raw)), 1, 6),
        &calls,
    )
}

// The same where the lost cell is not consulted.
fn lost_point(
    rt: &HostRuntime,
    sheet: &CheckedSheet<'_, '_>,
    raw: &mut [u8],
) -> anyhow::Result<()> {
    println!(rt; "a join of the captures 02ff and --000a is laid;")?;
    println!(rt; "then calls on the same store, with nothing laid at first")?;
    let first = Capture::open(b"02ff").ok().context("no capture")?;
    let second = Capture::open(b"--000a").ok().context("no capture")?;
    let calls = [
        Call::Find(b"root.pts[1]"),
        Call::Lay,
        Call::Put(b"root.pts[0]", b"\x00\x01"),
    ];
    print_session(
        rt,
        sheet,
        &Join::new(first, second),
        &mut Window::new(Swap::new(Bytes::new(raw)), 1, 6),
        &calls,
    )
}

pub(crate) fn over_piles(rt: &HostRuntime) -> anyhow::Result<()> {
    let mut table = [Row::BLANK; 16];
    let mut sheet = CheckedSheet::built_in();
    let rows = read_sheet(TRACE, &mut table).map_or(0, |n| n.min(16));
    sheet.fill(TRACE, &table[..rows]).ok().context("no sheet")?;
    let mut raw = [0x02, 0xaa, 0xec, 0xff, 0x0a, 0x00, 0xbb, 0x7f];
    lost_count(rt, &sheet, &mut raw)?;
    println!(rt; "  {raw:?}")?;
    lost_point(rt, &sheet, &mut raw)?;
    println!(rt; "  {raw:?}")?;
    Ok(())
}
