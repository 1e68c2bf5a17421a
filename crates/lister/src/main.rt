// Reads a sheet and a capture from standard input, and prints the listing.
#![tactic(auto)]

use anyhow::Context;
use input::INPUT_MAX;
use line::Line;
use listing::{LISTING_MAX, list};
use std::io::{Read, Write};

fn main(rt: HostRuntime) -> anyhow::Result<()> {
    let mut bytes = Vec::new(rt.alloc());
    rt.stdin().take(INPUT_MAX as u64).read_to_end(&mut bytes)?;
    let mut places = vec![in rt.alloc(); 0u8; LISTING_MAX]?;
    let mut line = Line::new(places.as_mut_slice());
    list(bytes.as_slice(), &mut line).context("the listing is longer than its buffer")?;
    rt.stdout().write_all(line.as_bytes())?;
    Ok(())
}
