// Edits a message by its sheet. Reads a sheet, an empty line, a message in hexadecimal digits, an empty line,
// and a script with one call in each line. Makes the calls on the message, prints a line for each answer, and
// then the listing of the message as it is then. With arguments it does so for each file that they name, behind a
// line with its name; `-` names standard input.
#![tactic(auto)]

use anyhow::Context;
use cells::bytes::Bytes;
use cells::capture::Capture;
use cells::source::Store;
use input::{INPUT_MAX, Input};
use line::Line;
use listing::{LISTING_MAX, PIECES_MAX, list, write_answers, write_message};
use path::Piece;
use reading::{Answer, Call, Laid, run};
use script::{calls_of, push_bytes, put_bytes};
use sheet::{CheckedSheet, read_sheet};
use sheet_text::{MAX_ROWS, Row};
use std::io::{Read, Write};
use std::{env, fs};

mod script;

const TOO_LONG: &str = "the text is longer than its buffer";

/// No answer's line is longer.
const ANSWER_MAX: usize = 160;

// Makes the calls on the store, and prints their answers and the listing of the store's message.
fn edit<S: Store>(
    rt: &HostRuntime,
    sheet: &CheckedSheet<'_, '_>,
    store: &mut S,
    calls: &[Call<'_>],
) -> anyhow::Result<()> {
    let mut pieces = vec![in rt.alloc(); Piece::blank(); PIECES_MAX]?;
    let mut answers = vec![in rt.alloc(); Answer::Lifted; calls.len()]?;
    let mut laid = Laid::nothing();
    run(
        sheet,
        store,
        pieces.as_mut_slice(),
        &mut laid,
        calls,
        answers.as_mut_slice(),
    );
    let size = LISTING_MAX.saturating_add(calls.len().saturating_mul(ANSWER_MAX));
    let mut places = vec![in rt.alloc(); 0u8; size]?;
    let mut line = Line::new(places.as_mut_slice());
    write_answers(answers.as_slice(), &mut line).context(TOO_LONG)?;
    write_message(sheet, &*store, pieces.as_mut_slice(), &mut line).context(TOO_LONG)?;
    rt.stdout().write_all(line.as_bytes())?;
    Ok(())
}

// Prints the listing of an input.
fn print_listing(rt: &HostRuntime, bytes: &[u8]) -> anyhow::Result<()> {
    let mut places = vec![in rt.alloc(); 0u8; LISTING_MAX]?;
    let mut line = Line::new(places.as_mut_slice());
    list(bytes, &mut line).context(TOO_LONG)?;
    rt.stdout().write_all(line.as_bytes())?;
    Ok(())
}

// Edits the message of an input: a sheet, a message and a script. Where the sheet or the message is refused, the
// listing of the two tells it.
fn edit_input(rt: &HostRuntime, bytes: &[u8]) -> anyhow::Result<()> {
    let input = Input::of(bytes);
    let rest = Input::of(input.capture);
    let message = rest.sheet.strip_suffix(b"\n").unwrap_or(rest.sheet);
    let mut table = [Row::BLANK; MAX_ROWS];
    let mut sheet = CheckedSheet::built_in();
    let read = read_sheet(input.sheet, &mut table).map_or(0, |n| n.min(MAX_ROWS));
    let filled = sheet.fill(input.sheet, &table[..read]);
    let (Ok(()), Ok(capture)) = (filled, Capture::open(message)) else {
        let end = input
            .sheet
            .len()
            .saturating_add(1)
            .saturating_add(message.len());
        return print_listing(rt, &bytes[..end.min(bytes.len())]);
    };
    let mut cells = Vec::new(rt.alloc());
    push_bytes(&mut cells, &capture).context("the message has a lost cell")?;
    let pool = put_bytes(rt, rest.capture)?;
    let calls = calls_of(rt, rest.capture, pool.as_slice())?;
    let mut store = Bytes::new(cells.as_mut_slice());
    edit(rt, &sheet, &mut store, calls.as_slice())
}

// Edits what standard input has.
fn edit_stdin(rt: &HostRuntime) -> anyhow::Result<()> {
    let mut bytes = Vec::new(rt.alloc());
    rt.stdin().take(INPUT_MAX as u64).read_to_end(&mut bytes)?;
    edit_input(rt, bytes.as_slice())
}

// Edits what a file has, or prints that it can't: its message or script is wrong, or there is no memory.
fn edit_file(rt: &HostRuntime, name: &str) -> anyhow::Result<()> {
    let bytes = fs::read(rt, name)?;
    if edit_input(rt, bytes.as_slice()).is_err() {
        println!(rt; "error")?;
    }
    Ok(())
}

fn main(rt: HostRuntime) -> anyhow::Result<()> {
    if env::args(&rt)?.len() < 2 {
        return edit_stdin(&rt);
    }
    for name in env::args(&rt)?.skip(1) {
        println!(rt; "== {name}")?;
        match name.as_str() {
            "-" => edit_stdin(&rt)?,
            file => edit_file(&rt, file)?,
        }
    }
    Ok(())
}
