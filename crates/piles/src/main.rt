// Piles of layers over the bottoms, read and written through.
#![tactic(auto)]

use cells::bytes::Bytes;
use cells::capture::Capture;
use cells::cell::ReadFault;
use cells::source::{Source, Store};
use cells::words::Words;
use deep::Worn;
use layers::join::Join;
use layers::swap::Swap;
use layers::window::Window;
use std::io;
use told::Told;

mod deep;
mod session;

fn show(rt: &HostRuntime, answer: Result<u8, ReadFault>) -> io::Result<()> {
    match answer {
        Ok(byte) => println!(rt; "  {byte:02x}"),
        Err(fault) => {
            let told = Told::from(fault);
            let number = told.number;
            match (told.place, told.lost, told.layers) {
                (Some(k), _, _) => println!(rt; "  refused with {number}: no cell {k}"),
                (_, Some(place), Some(layers)) => {
                    println!(rt; "  refused with {number}: lost at {place}, {layers} layers")
                }
                _ => println!(rt; "  refused with {number}"),
            }
        }
    }
}

// Every cell of a source, and a read past its end.
fn show_all<S: Source>(rt: &HostRuntime, source: &S) -> io::Result<()> {
    let count = source.len();
    println!(rt; "  {count} cells")?;
    // A source has no slice to go over: it is read place by place.
    for k in 0..count {
        show(rt, source.read(k))?;
    }
    show(rt, source.read(count))
}

fn over_bytes(rt: &HostRuntime) -> io::Result<()> {
    println!(rt; "a window (1, 3) over a swap over bytes")?;
    let mut raw = [1, 2, 3, 4, 5];
    {
        let mut pile = Window::new(Swap::new(Bytes::new(&mut raw)), 1, 3);
        show_all(rt, &pile)?;
        println!(rt; " written: cell 0, cell 2, cell 3")?;
        show(rt, pile.write(0, 10))?;
        show(rt, pile.write(2, 20))?;
        show(rt, pile.write(3, 30))?;
    }
    println!(rt; "  {raw:?}")
}

fn over_capture(rt: &HostRuntime) -> io::Result<()> {
    println!(rt; "a window (1, 3) over a swap over the capture aa--ffec")?;
    match Capture::open(b"aa--ffec") {
        Ok(capture) => show_all(rt, &Window::new(Swap::new(capture), 1, 3)),
        Err(fault) => {
            let place = fault.place;
            println!(rt; "  refused at {place}")
        }
    }
}

fn over_words(rt: &HostRuntime) -> io::Result<()> {
    println!(rt; "a join of words and a window (1, 9) over words")?;
    let mut one = [0x0102, 0x0304];
    let mut two = [0x0506, 0x0708];
    {
        let mut pile = Join::new(
            Words::new(&mut one),
            Window::new(Words::new(&mut two), 1, 9),
        );
        show_all(rt, &pile)?;
        println!(rt; " written: cell 1, cell 4, cell 7")?;
        show(rt, pile.write(1, 0x1a))?;
        show(rt, pile.write(4, 0x1b))?;
        show(rt, pile.write(7, 0x1c))?;
    }
    println!(rt; "  {one:?} {two:?}")
}

// Writes the last cell, and then past the end.
fn show_end<S: Store>(rt: &HostRuntime, store: &mut S) -> io::Result<()> {
    let count = store.len();
    println!(rt; "  {count} cells")?;
    show(rt, store.write(count.saturating_sub(1), 7))?;
    show(rt, store.write(count, 8))?;
    show(rt, store.read(count))
}

fn cut_join(rt: &HostRuntime) -> anyhow::Result<()> {
    println!(rt; "a join of 40,000 and 40,000 bytes, cut at 65,535")?;
    let mut one = vec![in rt.alloc(); 1u8; 40_000]?;
    let mut two = vec![in rt.alloc(); 2u8; 40_000]?;
    {
        let mut pile = Join::new(
            Bytes::new(one.as_mut_slice()),
            Bytes::new(two.as_mut_slice()),
        );
        show(rt, pile.write(39_999, 6))?;
        show(rt, pile.read(40_000))?;
        show_end(rt, &mut pile)?;
    }
    let first = &one.as_slice()[39_998..];
    let second = &two.as_slice()[25_533..25_537];
    println!(rt; "  {first:?} {second:?}")?;
    Ok(())
}

fn past_bytes(rt: &HostRuntime) -> anyhow::Result<()> {
    println!(rt; "65,537 bytes, of which 65,535 count")?;
    let mut bytes = vec![in rt.alloc(); 1u8; 65_537]?;
    show_end(rt, &mut Bytes::new(bytes.as_mut_slice()))?;
    let end = &bytes.as_slice()[65_533..];
    println!(rt; "  {end:?}")?;
    Ok(())
}

fn past_words(rt: &HostRuntime) -> anyhow::Result<()> {
    println!(rt; "32,769 words, of which 32,767 count")?;
    let mut words = vec![in rt.alloc(); 0x0102u16; 32_769]?;
    show_end(rt, &mut Words::new(words.as_mut_slice()))?;
    let end = &words.as_slice()[32_765..];
    println!(rt; "  {end:?}")?;
    Ok(())
}

fn held_layers(rt: &HostRuntime) -> io::Result<()> {
    println!(rt; "a mark that has come through 253 layers, under one, two and three more")?;
    let once = Swap::new(Worn::new(253));
    show(rt, once.read(0))?;
    let twice = Window::new(Swap::new(Worn::new(253)), 0, 1);
    show(rt, twice.read(0))?;
    let thrice = Swap::new(Window::new(Swap::new(Worn::new(253)), 0, 1));
    show(rt, thrice.read(0))
}

fn run(rt: &HostRuntime) -> anyhow::Result<()> {
    over_bytes(rt)?;
    over_capture(rt)?;
    over_words(rt)?;
    cut_join(rt)?;
    past_bytes(rt)?;
    past_words(rt)?;
    held_layers(rt)?;
    session::over_piles(rt)?;
    Ok(())
}

fn main(rt: HostRuntime) -> anyhow::Result<()> {
    run(&rt)
}
