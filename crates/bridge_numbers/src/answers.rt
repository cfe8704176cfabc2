// What the library's calls answer, as numbers: what is said of each answer.
ghost use Rattle.std.specs.Prelude.{◌≡◌, ◌≤◌, ◌∷◌};
ghost use Rattle.terms.specs.Told.{told_refusal, told_first, told_checked, told_written, bit};
ghost use Rattle.terms.specs.Form.{told_point};
ghost use Rattle.decoder.specs.Feeding.{told_total};
ghost use Rattle.place.specs.Lookup.{told_placed};
ghost use Rattle.find.specs.Match.{told_match};
ghost use Rattle.bridge_numbers.specs.Telling.{places, said_of};
ghost use Rattle.bridge_numbers.specs.Answers.{three, seam_numbers};

use crate::telling::{PLACES, Said};
use decoder::Totals;
use place::Place;
use terms::{Cause, Decoder, First, Point, Refusal};
use utf8_pending::Seam;

// So many numbers, and 0 in the places behind them.
fn say<const N: usize>(numbers: [usize; N]) -> Said
    requires { N ≤ places }
    ensures { result ≡ said_of numbers.entry }
{
    let mut all = [0; PLACES];
    all[..N].copy_from_slice(&numbers);
    Said {
        numbers: all,
        count: N,
    }
}

// The number of the refusal, then its values.
pub fn say_refusal(r: Refusal) -> Said
    ensures { result ≡ said_of (told_refusal r) }
{
    match r {
        Refusal::Damaged {
            start,
            length,
            cause,
        } => say([1, start, length, cause.number() as usize]),
        Refusal::OverLimit => say([2]),
        Refusal::NoRoom { needed } => say([3, needed]),
        Refusal::PastEnd => say([4]),
        Refusal::Inside => say([5]),
        Refusal::Unusable { checkpoint } => say([6, checkpoint]),
        Refusal::ListRoom => say([7]),
        Refusal::BadState => say([8]),
        Refusal::NoScalar { position } => say([9, position]),
        Refusal::NotInPage { offset } => say([10, offset]),
    }
}

// 0, or the refusal.
pub fn say_checked(a: Result<(), Refusal>) -> Said
    ensures { result ≡ said_of (told_checked a) }
{
    match a {
        Ok(()) => say([0]),
        Err(r) => say_refusal(r),
    }
}

// 0 and how many were written, or the refusal.
pub fn say_written(a: Result<usize, Refusal>) -> Said
    ensures { result ≡ said_of (told_written a) }
{
    match a {
        Ok(n) => say([0, n]),
        Err(r) => say_refusal(r),
    }
}

// Nothing of the empty text; else 0 whole or 1 damage, its size, 1 where it is sure, and its cause.
pub fn say_first(a: First) -> Said
    ensures { result ≡ said_of (told_first a) }
{
    match a {
        First::Nothing => say([]),
        First::Whole(n) => say([0, n, 1, 0]),
        First::Damage(n, cause) => say([1, n, 1, cause.number() as usize]),
        First::Begun(n) => say([1, n, 0, Cause::ENDED.number() as usize]),
    }
}

// The number of the code point, and its size; both are 0 where there is none.
pub fn say_point(p: Option<Point>) -> Said
    ensures { result ≡ said_of (told_point p) }
{
    match p {
        None => say([0, 0]),
        Some(p) => say([p.number as usize, p.size]),
    }
}

// 0 and the four counts of the place, or the refusal.
pub fn say_placed(a: Result<Place, Refusal>) -> Said
    ensures { result ≡ said_of (told_placed a) }
{
    match a {
        Ok(p) => say([0, p.bytes, p.units, p.points, p.lines]),
        Err(r) => say_refusal(r),
    }
}

// 0 and the offset of the match, 0 alone where there is none, or the refusal.
pub fn say_match(m: Result<Option<usize>, Refusal>) -> Said
    ensures { result ≡ said_of (told_match m) }
{
    match m {
        Ok(Some(k)) => say([0, k]),
        Ok(None) => say([0]),
        Err(r) => say_refusal(r),
    }
}

// 0, how many were written, and the three totals; or the refusal.
pub fn say_total(a: Result<Totals, Refusal>) -> Said
    ensures { result ≡ said_of (told_total a) }
{
    match a {
        Ok(t) => say([0, t.written, t.whole, t.damaged, t.count]),
        Err(r) => say_refusal(r),
    }
}

// The seam's size and its four bytes.
pub fn say_seam(a: Seam) -> Said
    ensures { result ≡ said_of (seam_numbers a) }
{
    let b = a.bytes;
    say([
        a.size,
        b[0] as usize,
        b[1] as usize,
        b[2] as usize,
        b[3] as usize,
    ])
}

// The three held bytes.
pub fn say_held(held: [u8; Decoder::PENDING]) -> Said
    ensures { result ≡ said_of (three held) }
{
    say([held[0] as usize, held[1] as usize, held[2] as usize])
}

// 1 for yes, 0 for no.
pub fn number_of(yes: bool) -> usize
    ensures { result ≡ bit yes }
{
    usize::from(yes)
}
