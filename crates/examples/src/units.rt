// Texts of UTF-16 units: the calls of moxandril::units.
use crate::show::{of_units, wrote_bytes, wrote_points, wrote_units};
use std::io;

fn read(rt: &impl Print, text: &[u16]) -> io::Result<()> {
    of_units(rt, "units::segment, point, check:", text)?;
    crate::show::first(rt, moxandril::units::segment(text))?;
    crate::show::point(rt, moxandril::units::point(text))?;
    crate::show::checked(rt, moxandril::units::check(text))
}

fn to_bytes(rt: &impl Print, text: &[u16]) -> io::Result<()> {
    let mut out = [0u8; 64];
    of_units(rt, "units::to_bytes:", text)?;
    let answer = moxandril::units::to_bytes(text, &mut out);
    wrote_bytes(rt, answer, &out)
}

fn to_points(rt: &impl Print, text: &[u16]) -> io::Result<()> {
    let mut out = [0u32; 64];
    of_units(rt, "units::to_points:", text)?;
    let answer = moxandril::units::to_points(text, &mut out);
    wrote_points(rt, answer, &out)
}

fn repair(rt: &impl Print, text: &[u16]) -> io::Result<()> {
    let mut out = [0u16; 64];
    of_units(rt, "units::repair:", text)?;
    let answer = moxandril::units::repair(text, &mut out);
    wrote_units(rt, answer, &out)
}

fn repair_to_bytes(rt: &impl Print, text: &[u16]) -> io::Result<()> {
    let mut out = [0u8; 64];
    of_units(rt, "units::repair_to_bytes:", text)?;
    let answer = moxandril::units::repair_to_bytes(text, &mut out);
    wrote_bytes(rt, answer, &out)
}

fn example(rt: &impl Print, text: &[u16]) -> io::Result<()> {
    read(rt, text)?;
    to_bytes(rt, text)?;
    to_points(rt, text)?;
    repair(rt, text)?;
    repair_to_bytes(rt, text)
}

pub(crate) fn examples(rt: &impl Print) -> io::Result<()> {
    example(rt, &[0xD83D, 0xDE86])?;
    example(rt, &[0xD83D, 0xD83D, 0xDE86])?;
    example(rt, &[0xDE86, 0xD83D])
}
