// Places in a text of bytes, and cutting: the calls of moxandril::places. A place is its bytes, units, code points and lines.
use crate::show::{bytes, of_number};
use moxandril::Refusal;
use moxandril::places::{Bytes, Lines, Offset, Place, Points, Units};
use std::io;

pub(crate) fn found(rt: &impl Print, p: Result<Place, Refusal>) -> io::Result<()> {
    match p {
        Ok(q) => print!(rt; " at {} {} {} {}", q.bytes, q.units, q.points, q.lines),
        Err(r) => crate::show::refused(rt, r),
    }
}

fn asked(rt: &impl Print, name: &str, text: &[u8], n: usize) -> io::Result<()> {
    print!(rt; "{name}")?;
    bytes(rt, text)?;
    of_number(rt, ",", n)
}

fn lookups(rt: &impl Print, text: &[u8], n: usize) -> io::Result<()> {
    asked(rt, "places::at_byte, at_unit, at_point, at_line:", text, n)?;
    found(rt, moxandril::places::at_byte(text, Bytes(n)))?;
    found(rt, moxandril::places::at_unit(text, Units(n)))?;
    found(rt, moxandril::places::at_point(text, Points(n)))?;
    found(rt, moxandril::places::at_line(text, Lines(n)))?;
    println!(rt)
}

fn cuts(rt: &impl Print, text: &[u8], n: usize) -> io::Result<()> {
    asked(rt, "places::cut_bytes:", text, n)?;
    bytes(rt, moxandril::places::cut_bytes(text, Bytes(n)))?;
    println!(rt)?;
    asked(rt, "places::cut_units:", text, n)?;
    bytes(rt, moxandril::places::cut_units(text, Units(n)))?;
    println!(rt)?;
    asked(rt, "places::cut_points:", text, n)?;
    bytes(rt, moxandril::places::cut_points(text, Points(n)))?;
    println!(rt)
}

// From a place on, with the text behind it.
fn onward(rt: &impl Print, from: Place, rest: &[u8], n: usize) -> io::Result<()> {
    asked(rt, "places::resume, last:", rest, n)?;
    found(
        rt,
        moxandril::places::resume(rest, from, Offset::Unit(Units(n))),
    )?;
    found(
        rt,
        moxandril::places::last(rest, from, Offset::Unit(Units(n))),
    )?;
    println!(rt)
}

fn all(rt: &impl Print, text: &[u8]) -> io::Result<()> {
    lookups(rt, text, 1)?;
    lookups(rt, text, 2)?;
    lookups(rt, text, 3)?;
    lookups(rt, text, 12)?;
    cuts(rt, text, 3)
}

// Lines as senders write them: 0D 0A, a lone 0D, C2 85, E2 80 A8, and a 0D that ends the text.
fn lines(rt: &impl Print, text: &[u8]) -> io::Result<()> {
    lookups(rt, text, 1)?;
    lookups(rt, text, 2)?;
    lookups(rt, text, 5)
}

pub(crate) fn examples(rt: &impl Print) -> io::Result<()> {
    let from = Place {
        bytes: 4,
        units: 2,
        points: 2,
        lines: 0,
    };
    all(rt, b"\x41\xE2\x82\xAC\xF0\x9F\x9A\x86\x80\x0A\x42")?;
    lines(rt, b"\x41\x0D\x0A\x0D\xC2\x85\xE2\x80\xA8\x0D")?;
    onward(rt, from, b"\xF0\x9F\x9A\x86\x80\x0A\x42", 4)?;
    onward(rt, from, b"\xF0\x9F\x9A\x86\x80\x0A\x42", 3)
}
