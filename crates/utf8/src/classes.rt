// The segment that stands first in a byte text, by the classes that a table gives its bytes.
ghost use Rattle.std.specs.Prelude.{◌≡◌, ◌&&◌, not, map, drop};
ghost use Rattle.theory.specs.Table.{within, want, wanted_behind};
ghost use Rattle.terms.specs.Told.{told_first, look_says, first_says};
ghost use Rattle.utf8.specs.Classes.{class_in, any_later, rows_of_classes, lone_class, by_classes};
ghost use Rattle.utf8.specs.Inside.Lead.{wanted_next, laters, wanted, cause_in};

use terms::{Cause, First};

// What a class tells of a first byte: no sequence begins with it, and the cause of that; or one does, and wants so many bytes more.
#[derive(Clone, Copy)]
pub enum Lead {
    Alone(Cause),
    Begins(usize),
}

// The class that a table gives a byte.
#[inline]
fn class_in(classes: &[u8; 256], b: u8) -> u8
    ensures { result ≡ class_in classes.now b }
{
    classes[b as usize]
}

#[inline]
fn lead_of(class: u8) -> Lead
    ensures { (wanted_behind rows_of_classes class ≡ wanted class result) × (lone_class class ≡ cause_in class result) }
{
    match class {
        0 => Lead::Begins(0),
        1 => Lead::Alone(Cause::STRAY),
        2 => Lead::Alone(Cause::STRAY),
        3 => Lead::Alone(Cause::STRAY),
        5 => Lead::Begins(1),
        6 => Lead::Begins(2),
        7 => Lead::Begins(2),
        8 => Lead::Begins(2),
        9 => Lead::Begins(3),
        10 => Lead::Begins(3),
        11 => Lead::Begins(3),
        _ => Lead::Alone(Cause::FOREIGN),
    }
}

// Is it a class of later bytes?
#[inline]
fn later(class: u8) -> bool
    ensures { result ≡ within any_later class }
{
    match class {
        1 => true,
        2 => true,
        3 => true,
        _ => false,
    }
}

// Is a later byte of this class barred behind a byte of that one? E0 wants A0..BF, ED 80..9F, F0 90..BF and F4 80..8F.
#[inline]
fn barred(lead: u8, class: u8) -> bool
    ensures { within any_later class && not result ≡ within (wanted_next lead) class }
{
    match lead {
        6 => class != 3,
        8 => class == 3,
        9 => class == 1,
        11 => class != 1,
        _ => false,
    }
}

// May a byte of one class stand right behind a byte of the other in a sequence?
#[inline]
fn goes_on(lead: u8, class: u8) -> bool
    ensures { result ≡ within (wanted_next lead) class }
{
    later(class) & !barred(lead, class)
}

// Reads on behind a text's first byte, which has this class and wants so many more.
#[inline]
fn follow(text: &[u8], classes: &[u8; 256], class: u8, more: usize) -> First
    ensures { told_first result ≡ look_says (want (laters more class) (map (class_in classes.now) (drop 1 text.now))) }
{
    let mut lead = class;
    let mut n: usize = 1;
    while n <= more {
        if text.len() <= n {
            return First::Begun(n);
        }
        if !goes_on(lead, class_in(classes, text[n])) {
            return First::Damage(n, Cause::STOPPED);
        }
        lead = 5;
        n += 1;
    }
    First::Whole(n)
}

// The segment that stands first in a text, by any table of classes.
#[inline]
pub fn segment_by(text: &[u8], classes: &[u8; 256]) -> First
    ensures { told_first result ≡ first_says (by_classes classes.now) text.now }
{
    if text.len() == 0 {
        return First::Nothing;
    }
    let class = class_in(classes, text[0]);
    match lead_of(class) {
        Lead::Alone(cause) => First::Damage(1, cause),
        Lead::Begins(more) => follow(text, classes, class, more),
    }
}
