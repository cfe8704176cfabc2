// An index of a text: the calls of moxandril::index.
use moxandril::Refusal;
use moxandril::index::Builder;
use moxandril::places::{Bytes, Lines, Points, Units};
use std::io;

fn built(rt: &impl Print, answer: Result<(), Refusal>) -> io::Result<()> {
    match answer {
        Ok(()) => print!(rt; "index::feed, finish -> done row"),
        Err(r) => crate::show::refused(rt, r),
    }
}

// The end of the text, and the row of checkpoints: bytes, units, code points and lines of each.
fn finish(rt: &impl Print, state: Builder, row: &mut [u32]) -> io::Result<()> {
    built(rt, moxandril::index::finish(state, row).answer)?;
    crate::show::list_line(rt, row)
}

fn feed(state: Builder, piece: &[u8], row: &mut [u32]) -> Builder {
    moxandril::index::feed(state, piece, row).state
}

// Builds the index of a text in two pieces.
fn build(rt: &impl Print, text: &[u8], row: &mut [u32]) -> io::Result<()> {
    let (left, right) = text.split_at(text.len() / 2);
    let first = feed(Builder::fresh(), left, row);
    let second = feed(first, right, row);
    finish(rt, second, row)
}

fn lookups(rt: &impl Print, text: &[u8], row: &[u32], n: usize) -> io::Result<()> {
    crate::show::of_number(rt, "index::at_byte, at_unit, at_point, at_line:", n)?;
    crate::places::found(rt, moxandril::index::at_byte(text, row, Bytes(n)))?;
    crate::places::found(rt, moxandril::index::at_unit(text, row, Units(n)))?;
    crate::places::found(rt, moxandril::index::at_point(text, row, Points(n)))?;
    crate::places::found(rt, moxandril::index::at_line(text, row, Lines(n)))?;
    println!(rt)
}

// Is it the index of the text, and where lookups in it go.
fn audited(rt: &impl Print, text: &[u8], row: &[u32]) -> io::Result<()> {
    if moxandril::index::audit(text, row) {
        println!(rt; "index::audit -> yes")?;
    } else {
        println!(rt; "index::audit -> no")?;
    }
    lookups(rt, text, row, 256)?;
    lookups(rt, text, row, 230)?;
    lookups(rt, text, row, 250)
}

// A segment lies across the checkpoint's byte: the checkpoint is the boundary before it.
fn across(rt: &impl Print) -> io::Result<()> {
    let mut text = [0x41u8; 257];
    let mut row = [0u32; 8];
    text[254] = 0xE2;
    text[255] = 0x82;
    text[256] = 0xAC;
    build(rt, &text, &mut row)?;
    text[256] = 0x41;
    build(rt, &text, &mut row)
}

// The text is cut and a checkpoint's byte lies between 0D and 0A: the line ends behind the 0A.
fn between(rt: &impl Print) -> io::Result<()> {
    let mut text = [0x41u8; 512];
    let mut row = [0u32; 12];
    text[255] = 0x0D;
    text[256] = 0x0A;
    build(rt, &text, &mut row)?;
    lookups(rt, &text, &row, 1)
}

// The index of 300 letters, true and then with a false number in its second checkpoint.
fn falsified(rt: &impl Print) -> io::Result<()> {
    let text = [0x41u8; 300];
    let mut row = [0u32; 8];
    build(rt, &text, &mut row)?;
    audited(rt, &text, &row)?;
    row[5] = 200;
    audited(rt, &text, &row)
}

pub(crate) fn examples(rt: &impl Print) -> io::Result<()> {
    crate::show::of_number(rt, "index::needed:", 300)?;
    println!(rt; " {}", moxandril::index::needed(300))?;
    across(rt)?;
    between(rt)?;
    falsified(rt)
}
