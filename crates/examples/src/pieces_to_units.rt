// A byte text that comes in pieces, written as UTF-16 units: the calls of moxandril::pieces_to_units.
use moxandril::pieces_to_units::Decoder;
use std::io;

fn start(rt: &impl Print, room: usize) -> io::Result<Decoder> {
    let started = moxandril::pieces_to_units::start(room);
    crate::show::of_number(rt, "pieces_to_units::start: room", room)?;
    crate::pieces::opened(rt, started.answer)?;
    Ok(started.state)
}

// What was written, and the state for the next call.
fn feed(rt: &impl Print, state: Decoder, piece: &[u8], list: &mut [u32]) -> io::Result<Decoder> {
    let mut out = [0u16; 64];
    let fed = moxandril::pieces_to_units::feed(state, piece, &mut out, list);
    crate::show::of_bytes(rt, "pieces_to_units::feed:", piece)?;
    crate::show::wrote_units(rt, fed.answer, &out)?;
    Ok(fed.state)
}

// The totals, and the list of damages: start, length and cause of each, in bytes.
fn finish(rt: &impl Print, state: Decoder, list: &mut [u32]) -> io::Result<()> {
    let mut out = [0u16; 64];
    let answer = moxandril::pieces_to_units::finish(state, &mut out, list).answer;
    crate::pieces::totals(rt, "pieces_to_units::finish ->", answer)?;
    crate::show::list_line(rt, list)
}

// A pair from bytes of two pieces, and a damage across two.
fn across(rt: &impl Print) -> io::Result<()> {
    let mut list = [0u32; 6];
    let a = feed(rt, start(rt, 2)?, b"\xF0\x9F\x9A", &mut list)?;
    let b = feed(rt, a, b"\x86\xE2\x82", &mut list)?;
    let c = feed(rt, b, b"\x41", &mut list)?;
    finish(rt, c, &mut list)
}

pub(crate) fn examples(rt: &impl Print) -> io::Result<()> {
    across(rt)?;
    crate::show::of_number(rt, "pieces_to_units::most:", 3)?;
    println!(rt; " {}", moxandril::pieces_to_units::most(3))
}
