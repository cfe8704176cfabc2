// Runs the fixed examples, and each call of the front door on a small text, and prints a line for each: the call, what it is asked,
// and what came. Texts are in hexadecimal; a refusal is its number and its values.
#![tactic(auto)]

mod bytes;
mod index;
mod pages;
mod phrases;
mod pieces;
mod pieces_to_units;
mod places;
mod points;
mod show;
mod unit_pieces;
mod units;

use std::io;

fn main(rt: HostRuntime) -> io::Result<()> {
    crate::bytes::examples(&rt)?;
    crate::units::examples(&rt)?;
    crate::points::examples(&rt)?;
    crate::pages::examples(&rt)?;
    crate::pieces::examples(&rt)?;
    crate::unit_pieces::examples(&rt)?;
    crate::pieces_to_units::examples(&rt)?;
    crate::places::examples(&rt)?;
    crate::phrases::examples(&rt)?;
    crate::index::examples(&rt)
}
