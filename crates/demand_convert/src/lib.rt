// There and back: what two strict conversions granted is the text, and a refusal was due.
#![tactic(auto)]

ghost use Rattle.std.specs.Prelude.{◌≡◌, length};
ghost use Rattle.terms.specs.Strict.{damaged, check_says};
ghost use Rattle.terms.specs.Told.{told_refusal, told_checked};
ghost use Rattle.utf8.specs.Bytes.{bytes};
ghost use Rattle.utf8.specs.Scalar.{utf8};
ghost use Rattle.utf16.specs.Units.{units};
ghost use Rattle.utf16.specs.Scalar.{utf16};
ghost use Rattle.code_points.specs.Points.{code_points, no_scalar, points_say};
ghost use Rattle.convert_point.specs.Room.{most_of};
ghost use Rattle.convert_point.specs.declared.Target.TheVariants as the-target;
ghost use Rattle.demand_convert.specs.Due.{same_told, due_there, due_back};
ghost use Rattle.demand_convert.specs.Rounds.{Back, Round};

use convert_point::Target;
use terms::{Decoder, Refusal};

// Does the strict check refuse with this refusal?
fn refused_so(why: Refusal, check: Result<(), Refusal>) -> bool
    ensures { result ≡ same_told (told_refusal why) (told_checked check) }
{
    check == Err(why)
}

// Was this refusal due on the way there, for a text of so many elements, of which the strict check says so and which can need so
// much at most?
pub fn due_there(
    why: Refusal,
    check: Result<(), Refusal>,
    long: usize,
    room: usize,
    most: usize,
) -> bool
    ensures { result ≡ due_there (told_refusal why) (told_checked check) long room most }
{
    match why {
        Refusal::Damaged { .. } => refused_so(why, check),
        Refusal::NoScalar { .. } => refused_so(why, check),
        Refusal::OverLimit => Decoder::LIMIT < long,
        Refusal::NoRoom { needed } => check.is_ok() & (room < needed) & (needed <= most),
        _ => false,
    }
}

// Was this refusal due on the way back, from so many elements to a text of so many?
pub fn due_back(why: Refusal, long: usize, room: usize, text: usize) -> bool
    ensures { result ≡ due_back (told_refusal why) long room text }
{
    match why {
        Refusal::OverLimit => Decoder::LIMIT < long,
        Refusal::NoRoom { needed } => (room < needed) & (needed == text),
        _ => false,
    }
}

// The same for a text of each form, converted into another.
fn due_bytes(why: Refusal, text: &[u8], to: Target, room: usize) -> bool
    ensures { result ≡ due_there (told_refusal why) (check_says bytes text.now) (length text.now) room
        (most_of the-target.Bytes to (length text.now)) }
{
    let most = convert_point::most(Target::Bytes, to, text.len());
    due_there(why, utf8_check::check(text), text.len(), room, most)
}

fn due_units(why: Refusal, text: &[u16], to: Target, room: usize) -> bool
    ensures { result ≡ due_there (told_refusal why) (check_says units text.now) (length text.now) room
        (most_of the-target.Units to (length text.now)) }
{
    let most = convert_point::most(Target::Units, to, text.len());
    due_there(why, utf16_check::check(text), text.len(), room, most)
}

fn due_points(why: Refusal, text: &[u32], to: Target, room: usize) -> bool
    ensures { result ≡ due_there (told_refusal why) (points_say text.now) (length text.now) room
        (most_of the-target.Points to (length text.now)) }
{
    let most = convert_point::most(Target::Points, to, text.len());
    due_there(why, code_points::check(text), text.len(), room, most)
}

// Units as bytes: are they the text?
fn units_as_bytes(text: &[u8], between: &[u16], back: &mut [u8]) -> bool
    ensures { Back damaged utf16 utf8 text.now between.now back.old back.new result }
{
    let room = back.len();
    match convert_from_utf16::to_bytes(between, back) {
        Ok(n) => text == &back[..n],
        Err(why) => due_back(why, between.len(), room, text.len()),
    }
}

// Bytes as units, and back.
pub fn bytes_units(text: &[u8], between: &mut [u16], back: &mut [u8]) -> bool
    ensures { Round damaged damaged utf8 utf16 text.now between.old back.old
        between.new back.new result }
{
    let room = between.len();
    match convert_from_utf8::to_units(text, between) {
        Ok(n) => units_as_bytes(text, &between[..n], back),
        Err(why) => due_bytes(why, text, Target::Units, room),
    }
}

// Code points as bytes: are they the text?
fn points_as_bytes(text: &[u8], between: &[u32], back: &mut [u8]) -> bool
    ensures { Back no_scalar code_points utf8 text.now between.now back.old back.new result }
{
    let room = back.len();
    match convert_from_code_points::to_bytes(between, back) {
        Ok(n) => text == &back[..n],
        Err(why) => due_back(why, between.len(), room, text.len()),
    }
}

// Bytes as code points, and back.
pub fn bytes_points(text: &[u8], between: &mut [u32], back: &mut [u8]) -> bool
    ensures { Round damaged no_scalar utf8 code_points text.now between.old back.old
        between.new back.new result }
{
    let room = between.len();
    match convert_from_utf8::to_points(text, between) {
        Ok(n) => points_as_bytes(text, &between[..n], back),
        Err(why) => due_bytes(why, text, Target::Points, room),
    }
}

// Bytes as units: are they the text?
fn bytes_as_units(text: &[u16], between: &[u8], back: &mut [u16]) -> bool
    ensures { Back damaged utf8 utf16 text.now between.now back.old back.new result }
{
    let room = back.len();
    match convert_from_utf8::to_units(between, back) {
        Ok(n) => text == &back[..n],
        Err(why) => due_back(why, between.len(), room, text.len()),
    }
}

// Units as bytes, and back.
pub fn units_bytes(text: &[u16], between: &mut [u8], back: &mut [u16]) -> bool
    ensures { Round damaged damaged utf16 utf8 text.now between.old back.old
        between.new back.new result }
{
    let room = between.len();
    match convert_from_utf16::to_bytes(text, between) {
        Ok(n) => bytes_as_units(text, &between[..n], back),
        Err(why) => due_units(why, text, Target::Bytes, room),
    }
}

// Code points as units: are they the text?
fn points_as_units(text: &[u16], between: &[u32], back: &mut [u16]) -> bool
    ensures { Back no_scalar code_points utf16 text.now between.now back.old back.new result }
{
    let room = back.len();
    match convert_from_code_points::to_units(between, back) {
        Ok(n) => text == &back[..n],
        Err(why) => due_back(why, between.len(), room, text.len()),
    }
}

// Units as code points, and back.
pub fn units_points(text: &[u16], between: &mut [u32], back: &mut [u16]) -> bool
    ensures { Round damaged no_scalar utf16 code_points text.now between.old back.old
        between.new back.new result }
{
    let room = between.len();
    match convert_from_utf16::to_points(text, between) {
        Ok(n) => points_as_units(text, &between[..n], back),
        Err(why) => due_units(why, text, Target::Points, room),
    }
}

// Bytes as code points: are they the text?
fn bytes_as_points(text: &[u32], between: &[u8], back: &mut [u32]) -> bool
    ensures { Back damaged utf8 code_points text.now between.now back.old back.new result }
{
    let room = back.len();
    match convert_from_utf8::to_points(between, back) {
        Ok(n) => text == &back[..n],
        Err(why) => due_back(why, between.len(), room, text.len()),
    }
}

// Code points as bytes, and back.
pub fn points_bytes(text: &[u32], between: &mut [u8], back: &mut [u32]) -> bool
    ensures { Round no_scalar damaged code_points utf8 text.now between.old back.old
        between.new back.new result }
{
    let room = between.len();
    match convert_from_code_points::to_bytes(text, between) {
        Ok(n) => bytes_as_points(text, &between[..n], back),
        Err(why) => due_points(why, text, Target::Bytes, room),
    }
}

// Units as code points: are they the text?
fn units_as_points(text: &[u32], between: &[u16], back: &mut [u32]) -> bool
    ensures { Back damaged utf16 code_points text.now between.now back.old back.new result }
{
    let room = back.len();
    match convert_from_utf16::to_points(between, back) {
        Ok(n) => text == &back[..n],
        Err(why) => due_back(why, between.len(), room, text.len()),
    }
}

// Code points as units, and back.
pub fn points_units(text: &[u32], between: &mut [u16], back: &mut [u32]) -> bool
    ensures { Round no_scalar damaged code_points utf16 text.now between.old back.old
        between.new back.new result }
{
    let room = between.len();
    match convert_from_code_points::to_units(text, between) {
        Ok(n) => units_as_points(text, &between[..n], back),
        Err(why) => due_points(why, text, Target::Units, room),
    }
}
