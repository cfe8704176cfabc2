// Texts of code points: the calls of moxandril::points, and the most places that a text can need in another form.
use crate::show::{of_points, wrote_bytes, wrote_units};
use moxandril::Target;
use std::io;

fn read(rt: &impl Print, text: &[u32]) -> io::Result<()> {
    of_points(rt, "points::segment, point, check:", text)?;
    crate::show::first(rt, moxandril::points::segment(text))?;
    crate::show::point(rt, moxandril::points::point(text))?;
    crate::show::checked(rt, moxandril::points::check(text))
}

fn to_bytes(rt: &impl Print, text: &[u32]) -> io::Result<()> {
    let mut out = [0u8; 64];
    of_points(rt, "points::to_bytes:", text)?;
    let answer = moxandril::points::to_bytes(text, &mut out);
    wrote_bytes(rt, answer, &out)
}

fn to_units(rt: &impl Print, text: &[u32]) -> io::Result<()> {
    let mut out = [0u16; 64];
    of_points(rt, "points::to_units:", text)?;
    let answer = moxandril::points::to_units(text, &mut out);
    wrote_units(rt, answer, &out)
}

fn example(rt: &impl Print, text: &[u32]) -> io::Result<()> {
    read(rt, text)?;
    to_bytes(rt, text)?;
    to_units(rt, text)
}

pub(crate) fn examples(rt: &impl Print) -> io::Result<()> {
    example(rt, &[0x1F686, 0x41])?;
    example(rt, &[0x41, 0xD800])?;
    example(rt, &[0x110000])?;
    crate::show::of_number(rt, "most: units as bytes,", 10)?;
    println!(rt; " {}", moxandril::most(Target::Units, Target::Bytes, 10))
}
