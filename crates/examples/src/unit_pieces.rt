// A text of UTF-16 units that comes in pieces, written as bytes: the calls of moxandril::unit_pieces.
use moxandril::unit_pieces::UnitDecoder;
use std::io;

fn start(rt: &impl Print, room: usize) -> io::Result<UnitDecoder> {
    let started = moxandril::unit_pieces::start(room);
    crate::show::of_number(rt, "unit_pieces::start: room", room)?;
    crate::pieces::opened(rt, started.answer)?;
    Ok(started.state)
}

// What was written, and the state for the next call.
fn feed(
    rt: &impl Print,
    state: UnitDecoder,
    piece: &[u16],
    list: &mut [u32],
) -> io::Result<UnitDecoder> {
    let mut out = [0u8; 64];
    let fed = moxandril::unit_pieces::feed(state, piece, &mut out, list);
    crate::show::of_units(rt, "unit_pieces::feed:", piece)?;
    crate::show::wrote_bytes(rt, fed.answer, &out)?;
    Ok(fed.state)
}

// The totals, and the list of damages: start, length and cause of each, in units.
fn finish(rt: &impl Print, state: UnitDecoder, list: &mut [u32]) -> io::Result<()> {
    let mut out = [0u8; 64];
    let answer = moxandril::unit_pieces::finish(state, &mut out, list).answer;
    crate::pieces::totals(rt, "unit_pieces::finish ->", answer)?;
    crate::show::list_line(rt, list)
}

// A first half, and another that has its second half.
fn across(rt: &impl Print) -> io::Result<()> {
    let mut list = [0u32; 6];
    let a = feed(rt, start(rt, 2)?, &[0xD83D], &mut list)?;
    let b = feed(rt, a, &[0xD83D, 0xDE86], &mut list)?;
    finish(rt, b, &mut list)
}

// A half that ends the text.
fn ended(rt: &impl Print) -> io::Result<()> {
    let mut list = [0u32; 6];
    let state = feed(rt, start(rt, 2)?, &[0x41, 0xD83D], &mut list)?;
    finish(rt, state, &mut list)
}

pub(crate) fn examples(rt: &impl Print) -> io::Result<()> {
    across(rt)?;
    ended(rt)?;
    start(rt, 4_097)?;
    crate::show::of_number(rt, "unit_pieces::most:", 3)?;
    println!(rt; " {}", moxandril::unit_pieces::most(3))
}
