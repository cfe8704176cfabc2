// Where a phrase stands in a text of bytes: the calls of moxandril::phrases.
use crate::show::{bytes, of_bytes};
use moxandril::Refusal;
use std::io;

fn found(rt: &impl Print, m: Result<Option<usize>, Refusal>) -> io::Result<()> {
    match m {
        Ok(Some(k)) => print!(rt; " at {k}"),
        Ok(None) => print!(rt; " absent"),
        Err(r) => crate::show::refused(rt, r),
    }
}

fn asked(rt: &impl Print, name: &str, entry: &[u8], needle: &[u8]) -> io::Result<()> {
    print!(rt; "{name}")?;
    bytes(rt, entry)?;
    of_bytes(rt, ",", needle)
}

fn example(rt: &impl Print, entry: &[u8], needle: &[u8]) -> io::Result<()> {
    asked(rt, "phrases::find, find_plain:", entry, needle)?;
    found(rt, moxandril::phrases::find(entry, needle))?;
    found(rt, moxandril::phrases::find_plain(entry, needle))?;
    println!(rt)?;
    asked(rt, "phrases::find_rest:", entry, needle)?;
    bytes(rt, moxandril::phrases::find_rest(entry, needle))?;
    println!(rt)
}

fn all(rt: &impl Print, entry: &[u8]) -> io::Result<()> {
    example(rt, entry, b"\xE2\x82\xAC")?;
    example(rt, entry, b"\x6C")?;
    example(rt, entry, b"\xF0\x9F\x9A\x86")?;
    example(rt, entry, b"")?;
    example(rt, entry, b"\x20\xE2\x82")
}

pub(crate) fn examples(rt: &impl Print) -> io::Result<()> {
    all(rt, b"\x80\x43\x65\x6C\x6C\x20\xE2\x82\xAC\xE2")
}
