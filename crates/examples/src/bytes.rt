// Texts of bytes: the calls of moxandril::bytes.
use crate::show::{of_bytes, wrote_bytes, wrote_points, wrote_units};
use std::io;

fn read(rt: &impl Print, text: &[u8]) -> io::Result<()> {
    of_bytes(rt, "bytes::segment, point, check:", text)?;
    crate::show::first(rt, moxandril::bytes::segment(text))?;
    crate::show::point(rt, moxandril::bytes::point(text))?;
    crate::show::checked(rt, moxandril::bytes::check(text))
}

fn read_by(rt: &impl Print, text: &[u8]) -> io::Result<()> {
    of_bytes(rt, "bytes::segment_by, point_by:", text)?;
    crate::show::first(
        rt,
        moxandril::bytes::segment_by(text, &moxandril::bytes::CLASSES),
    )?;
    crate::show::point(
        rt,
        moxandril::bytes::point_by(text, &moxandril::bytes::CLASSES),
    )?;
    println!(rt)
}

fn to_units(rt: &impl Print, text: &[u8]) -> io::Result<()> {
    let mut out = [0u16; 64];
    of_bytes(rt, "bytes::to_units:", text)?;
    let answer = moxandril::bytes::to_units(text, &mut out);
    wrote_units(rt, answer, &out)
}

fn to_points(rt: &impl Print, text: &[u8]) -> io::Result<()> {
    let mut out = [0u32; 64];
    of_bytes(rt, "bytes::to_points:", text)?;
    let answer = moxandril::bytes::to_points(text, &mut out);
    wrote_points(rt, answer, &out)
}

fn repair(rt: &impl Print, text: &[u8]) -> io::Result<()> {
    let mut out = [0u8; 64];
    of_bytes(rt, "bytes::repair:", text)?;
    let answer = moxandril::bytes::repair(text, &mut out);
    wrote_bytes(rt, answer, &out)
}

fn repair_to_units(rt: &impl Print, text: &[u8]) -> io::Result<()> {
    let mut out = [0u16; 64];
    of_bytes(rt, "bytes::repair_to_units:", text)?;
    let answer = moxandril::bytes::repair_to_units(text, &mut out);
    wrote_units(rt, answer, &out)
}

fn example(rt: &impl Print, text: &[u8]) -> io::Result<()> {
    read(rt, text)?;
    to_units(rt, text)?;
    to_points(rt, text)?;
    repair(rt, text)?;
    repair_to_units(rt, text)
}

fn well_formed(rt: &impl Print) -> io::Result<()> {
    example(rt, b"")?;
    example(rt, b"\xE2\x82\xAC")?;
    example(rt, b"\xF0\x9F\x9A\x86")?;
    example(rt, b"\xF4\x8F\xBF\xBF")
}

fn out_of_range(rt: &impl Print) -> io::Result<()> {
    example(rt, b"\xF4\x90\x80\x80")?;
    example(rt, b"\xED\xA0\x80")
}

fn too_long(rt: &impl Print) -> io::Result<()> {
    example(rt, b"\xF0\x8F\xBF\xBF")?;
    example(rt, b"\xE0\x9F\xBF")?;
    example(rt, b"\xC0\x80")
}

fn broken_off(rt: &impl Print) -> io::Result<()> {
    example(rt, b"\xE2\x82\x41")?;
    example(rt, b"\xF0\x9F\x9A")?;
    example(rt, b"\x61\xF1\x80\x80\xE1\x80\xC2\x62\x80\x63\x80\xBF\x64")
}

fn by_a_table(rt: &impl Print) -> io::Result<()> {
    read_by(rt, b"\xE2\x82\xAC")?;
    read_by(rt, b"\xE2\x82\x41")
}

pub(crate) fn examples(rt: &impl Print) -> io::Result<()> {
    well_formed(rt)?;
    out_of_range(rt)?;
    too_long(rt)?;
    broken_off(rt)?;
    by_a_table(rt)
}
