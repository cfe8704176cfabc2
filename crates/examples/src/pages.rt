// Texts of old single-byte pages: the call of moxandril::pages, and the way back from bytes.
use crate::show::{of_bytes, wrote_bytes};
use moxandril::pages::Page;
use std::io;

fn to_bytes(rt: &impl Print, name: &str, text: &[u8], page: Page) -> io::Result<()> {
    let mut out = [0u8; 64];
    of_bytes(rt, name, text)?;
    let answer = moxandril::pages::to_bytes(text, page, &mut out);
    wrote_bytes(rt, answer, &out)
}

fn to_page(rt: &impl Print, name: &str, text: &[u8], page: Page) -> io::Result<()> {
    let mut out = [0u8; 64];
    of_bytes(rt, name, text)?;
    let answer = moxandril::bytes::to_page(text, page, &mut out);
    wrote_bytes(rt, answer, &out)
}

// A text of bytes of a page, in each page.
fn from_each(rt: &impl Print, text: &[u8]) -> io::Result<()> {
    to_bytes(rt, "pages::to_bytes from 8859-1:", text, Page::Iso8859_1)?;
    to_bytes(rt, "pages::to_bytes from 8859-5:", text, Page::Iso8859_5)?;
    to_bytes(rt, "pages::to_bytes from 8859-15:", text, Page::Iso8859_15)
}

// A text of UTF-8 bytes, into each page.
fn into_each(rt: &impl Print, text: &[u8]) -> io::Result<()> {
    to_page(rt, "bytes::to_page to 8859-1:", text, Page::Iso8859_1)?;
    to_page(rt, "bytes::to_page to 8859-5:", text, Page::Iso8859_5)?;
    to_page(rt, "bytes::to_page to 8859-15:", text, Page::Iso8859_15)
}

pub(crate) fn examples(rt: &impl Print) -> io::Result<()> {
    from_each(rt, &[0x41, 0xA4, 0xAD, 0xF0, 0xFD])?;
    into_each(rt, &[0x35, 0xE2, 0x82, 0xAC])?;
    into_each(rt, &[0xC2, 0xA7, 0xE2, 0x84, 0x96])?;
    into_each(rt, &[0xE2, 0x82, 0xAC, 0x80])?;
    into_each(rt, &[])
}
