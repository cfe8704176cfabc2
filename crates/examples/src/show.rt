// Printing: a call's name and what it is asked, texts in hexadecimal, and what came.
use moxandril::{First, Point, Refusal};
use std::io;

pub(crate) fn number(rt: &impl Print, n: usize) -> io::Result<()> {
    print!(rt; " {n}")
}

pub(crate) fn byte(rt: &impl Print, b: u8) -> io::Result<()> {
    print!(rt; " {b:02x}")
}

fn unit(rt: &impl Print, u: u16) -> io::Result<()> {
    print!(rt; " {u:04x}")
}

fn code(rt: &impl Print, c: u32) -> io::Result<()> {
    print!(rt; " {c:06x}")
}

// ---- texts, and so many of the first elements of an output

fn first_bytes(rt: &impl Print, text: &[u8], n: usize) -> io::Result<()> {
    for b in text.iter().take(n) {
        byte(rt, *b)?;
    }
    Ok(())
}

fn first_units(rt: &impl Print, text: &[u16], n: usize) -> io::Result<()> {
    for u in text.iter().take(n) {
        unit(rt, *u)?;
    }
    Ok(())
}

fn first_points(rt: &impl Print, text: &[u32], n: usize) -> io::Result<()> {
    for c in text.iter().take(n) {
        code(rt, *c)?;
    }
    Ok(())
}

pub(crate) fn bytes(rt: &impl Print, text: &[u8]) -> io::Result<()> {
    first_bytes(rt, text, text.len())
}

fn list(rt: &impl Print, row: &[u32]) -> io::Result<()> {
    for n in row {
        print!(rt; " {n}")?;
    }
    Ok(())
}

pub(crate) fn list_line(rt: &impl Print, row: &[u32]) -> io::Result<()> {
    list(rt, row)?;
    println!(rt)
}

// ---- what is asked

pub(crate) fn of_bytes(rt: &impl Print, name: &str, text: &[u8]) -> io::Result<()> {
    print!(rt; "{name}")?;
    bytes(rt, text)?;
    print!(rt; " ->")
}

pub(crate) fn of_units(rt: &impl Print, name: &str, text: &[u16]) -> io::Result<()> {
    print!(rt; "{name}")?;
    first_units(rt, text, text.len())?;
    print!(rt; " ->")
}

pub(crate) fn of_points(rt: &impl Print, name: &str, text: &[u32]) -> io::Result<()> {
    print!(rt; "{name}")?;
    first_points(rt, text, text.len())?;
    print!(rt; " ->")
}

pub(crate) fn of_number(rt: &impl Print, name: &str, n: usize) -> io::Result<()> {
    print!(rt; "{name} {n} ->")
}

// ---- what came

// A refusal: its number, then its values.
pub(crate) fn refused(rt: &impl Print, r: Refusal) -> io::Result<()> {
    print!(rt; " refused {}", r.number())?;
    match r {
        Refusal::Damaged {
            start,
            length,
            cause,
        } => print!(rt; " {start} {length} {}", cause.number()),
        Refusal::NoRoom { needed } => number(rt, needed),
        Refusal::Unusable { checkpoint } => number(rt, checkpoint),
        Refusal::NoScalar { position } => number(rt, position),
        Refusal::NotInPage { offset } => number(rt, offset),
        _ => Ok(()),
    }
}

// What stands first: its size, and why it is damaged.
pub(crate) fn first(rt: &impl Print, f: First) -> io::Result<()> {
    match f {
        First::Nothing => {}
        First::Whole(_) => print!(rt; " whole")?,
        First::Damage(_, _) => print!(rt; " damage")?,
        First::Begun(_) => print!(rt; " begun")?,
    }
    let cause = f.cause().map_or(0, |cause| cause.number());
    print!(rt; " {} {cause}", f.size())
}

// A code point and its size, 0 and 0 where there is none.
pub(crate) fn point(rt: &impl Print, p: Option<Point>) -> io::Result<()> {
    let (c, size) = p.map_or((0, 0), |p| (p.number, p.size));
    code(rt, c)?;
    number(rt, size)
}

pub(crate) fn checked(rt: &impl Print, c: Result<(), Refusal>) -> io::Result<()> {
    match c {
        Ok(()) => print!(rt; " well-formed")?,
        Err(r) => refused(rt, r)?,
    }
    println!(rt)
}

pub(crate) fn wrote_bytes(
    rt: &impl Print,
    answer: Result<usize, Refusal>,
    out: &[u8],
) -> io::Result<()> {
    match answer {
        Ok(n) => first_bytes(rt, out, n)?,
        Err(r) => refused(rt, r)?,
    }
    println!(rt)
}

pub(crate) fn wrote_units(
    rt: &impl Print,
    answer: Result<usize, Refusal>,
    out: &[u16],
) -> io::Result<()> {
    match answer {
        Ok(n) => first_units(rt, out, n)?,
        Err(r) => refused(rt, r)?,
    }
    println!(rt)
}

pub(crate) fn wrote_points(
    rt: &impl Print,
    answer: Result<usize, Refusal>,
    out: &[u32],
) -> io::Result<()> {
    match answer {
        Ok(n) => first_points(rt, out, n)?,
        Err(r) => refused(rt, r)?,
    }
    println!(rt)
}
