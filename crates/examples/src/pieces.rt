// A text that comes in pieces, and the watch: the calls of moxandril::pieces.
use moxandril::Refusal;
use moxandril::pieces::{Decoder, Totals};
use std::io;

pub(crate) fn opened(rt: &impl Print, answer: Result<(), Refusal>) -> io::Result<()> {
    match answer {
        Ok(()) => print!(rt; " ready")?,
        Err(r) => crate::show::refused(rt, r)?,
    }
    println!(rt)
}

fn start(rt: &impl Print, room: usize) -> io::Result<Decoder> {
    let started = moxandril::pieces::start(room);
    crate::show::of_number(rt, "pieces::start: room", room)?;
    opened(rt, started.answer)?;
    Ok(started.state)
}

// What was written, and the state for the next call.
fn feed(rt: &impl Print, state: Decoder, piece: &[u8], list: &mut [u32]) -> io::Result<Decoder> {
    let mut out = [0u8; 64];
    let fed = moxandril::pieces::feed(state, piece, &mut out, list);
    crate::show::of_bytes(rt, "pieces::feed:", piece)?;
    crate::show::wrote_bytes(rt, fed.answer, &out)?;
    Ok(fed.state)
}

// How many places were written; then the elements in whole segments, the damaged ones and the damages.
pub(crate) fn totals(
    rt: &impl Print,
    name: &str,
    answer: Result<Totals, Refusal>,
) -> io::Result<()> {
    print!(rt; "{name}")?;
    match answer {
        Ok(all) => print!(rt;
            " {} {} {} {}",
            all.written, all.whole, all.damaged, all.count
        )?,
        Err(r) => crate::show::refused(rt, r)?,
    }
    print!(rt; ", list")
}

// The totals, and the list of damages: start, length and cause of each.
fn finish(rt: &impl Print, state: Decoder, list: &mut [u32]) -> io::Result<()> {
    let mut out = [0u8; 64];
    let answer = moxandril::pieces::finish(state, &mut out, list).answer;
    totals(rt, "pieces::finish ->", answer)?;
    crate::show::list_line(rt, list)
}

// The watch by value: how many damages there are so far.
fn step(rt: &impl Print, state: Decoder, b: u8) -> io::Result<Decoder> {
    let watched = moxandril::pieces::step(state, b);
    println!(rt; "pieces::step: {b:02x} -> {}", watched.reply)?;
    Ok(watched.state)
}

fn watched(rt: &impl Print) -> io::Result<()> {
    let mut state = Decoder::fresh(0);
    for b in b"\xE2\x82\x41\x80" {
        state = step(rt, state, *b)?;
    }
    Ok(())
}

// A damage across three pieces.
fn across(rt: &impl Print) -> io::Result<()> {
    let mut list = [0u32; 6];
    let a = feed(rt, start(rt, 2)?, b"\xE2", &mut list)?;
    let b = feed(rt, a, b"\x82", &mut list)?;
    let c = feed(rt, b, b"\x41", &mut list)?;
    finish(rt, c, &mut list)
}

// One piece, with a list of six numbers.
fn once(rt: &impl Print, room: usize, text: &[u8]) -> io::Result<()> {
    let mut list = [0u32; 6];
    let state = feed(rt, start(rt, room)?, text, &mut list)?;
    finish(rt, state, &mut list)
}

pub(crate) fn examples(rt: &impl Print) -> io::Result<()> {
    across(rt)?;
    once(rt, 2, b"\x80\x80\x80\x80\x80")?;
    once(rt, 2, b"\x41\xF0\x9F\x9A")?;
    once(rt, 3, b"\x41")?;
    start(rt, 4_097)?;
    crate::show::of_number(rt, "pieces::most:", 3)?;
    println!(rt; " {}", moxandril::pieces::most(3))?;
    watched(rt)
}
