// A whole text of UTF-8 bytes in the other forms, strict and repairing, into a lent output.
#![tactic(auto)]

ghost use Rattle.std.specs.Prelude.{◌≡◌, ◌≤◌, length};
ghost use Rattle.terms.specs.Form.{converted};
ghost use Rattle.terms.specs.Strict.{damaged};
ghost use Rattle.terms.specs.Writing.{Writes, repair_says, convert_says};
ghost use Rattle.utf8.specs.Scalar.{utf8};
ghost use Rattle.utf16.specs.Scalar.{utf16};
ghost use Rattle.code_points.specs.Points.{code_points};
ghost use Rattle.page.specs.Tables.{table_of};
ghost use Rattle.page.specs.Paged.{paged};
ghost use Rattle.page.specs.Lacking.{to_page_says};
ghost use Rattle.convert_point.specs.Puts.{Puts};
ghost use Rattle.convert_from_utf8.specs.Inside.Spell.{spelled};

use convert_point::Target;
use page::Page;
use terms::{Decoder, Refusal};
use utf8_check::Pace;

mod pages;
mod points;
mod spelling;

// How many units the text has: segments and runs of whole ones by turns, a segment first.
fn need_on(text: &[u8]) -> usize
    ensures { result ≡ length (converted utf8 utf16 text.now) }
{
    let mut rest = text;
    let mut total: usize = 0;
    let mut pace = Pace::START;
    while let Some(p) = utf8::point_by(rest, &utf8::CLASSES) {
        total += convert_point::places(Target::Units, p.number);
        let behind = &rest[p.size..];
        let run = utf8_check::paced_run(behind, pace);
        total += crate::spelling::need(&behind[..run]);
        pace = utf8_check::pace_behind(pace, run);
        rest = &behind[run..];
    }
    total
}

// How many units the text has. The first run goes before all others: mostly it is all there is, and no table is made.
fn need_units(text: &[u8]) -> usize
    ensures { result ≡ length (converted utf8 utf16 text.now) }
{
    let run = utf8_check::whole_run(text);
    let first = crate::spelling::need(&text[..run]);
    if run == text.len() {
        return first;
    }
    first + need_on(&text[run..])
}

// The units of a run. Where damage is dense most runs are none, and not worth the call.
fn spell_run(run: &[u8], out: &mut [u16]) -> usize
    requires { length (spelled run.now) ≤ length out.old }
    ensures { Puts (spelled run.now) out.old out.new result }
{
    if run.len() == 0 {
        return 0;
    }
    crate::spelling::put(run, out)
}

// The text as units: segments and runs of whole ones by turns, a segment first.
fn write_on(text: &[u8], out: &mut [u16]) -> usize
    requires { length (converted utf8 utf16 text.now) ≤ length out.old }
    ensures { Puts (converted utf8 utf16 text.now) out.old out.new result }
{
    let mut rest = text;
    let mut done: usize = 0;
    let mut pace = Pace::START;
    while let Some(p) = utf8::point_by(rest, &utf8::CLASSES) {
        done += convert_point::put_units(&mut out[done..], p.number);
        let behind = &rest[p.size..];
        let run = utf8_check::paced_run(behind, pace);
        done += spell_run(&behind[..run], &mut out[done..]);
        pace = utf8_check::pace_behind(pace, run);
        rest = &behind[run..];
    }
    done
}

// The text as units. The first run goes before all others: mostly it is all there is, and no table is made.
fn write_units(text: &[u8], out: &mut [u16]) -> usize
    requires { length (converted utf8 utf16 text.now) ≤ length out.old }
    ensures { Puts (converted utf8 utf16 text.now) out.old out.new result }
{
    let run = utf8_check::whole_run(text);
    let first = crate::spelling::put(&text[..run], out);
    if run == text.len() {
        return first;
    }
    first + write_on(&text[run..], &mut out[first..])
}

// The text as units, with U+FFFD for each damage.
pub fn repair_to_units(text: &[u8], out: &mut [u16]) -> Result<usize, Refusal>
    ensures { Writes
        (repair_says (length out.old) text.now (converted utf8 utf16 text.now))
        (converted utf8 utf16 text.now)
        out.old
        out.new
        result }
{
    if Decoder::LIMIT < text.len() {
        return Err(Refusal::OverLimit);
    }
    if convert_point::most(Target::Bytes, Target::Units, text.len()) <= out.len() {
        return Ok(write_units(text, out));
    }
    let units = need_units(text);
    if out.len() < units {
        return Err(Refusal::NoRoom { needed: units });
    }
    Ok(write_units(text, out))
}

// The text as units; strict, so that damage is refused.
pub fn to_units(text: &[u8], out: &mut [u16]) -> Result<usize, Refusal>
    ensures { Writes
        (convert_says damaged utf8 utf16 (length out.old) text.now)
        (converted utf8 utf16 text.now)
        out.old
        out.new
        result }
{
    utf8_check::check(text)?;
    crate::spelling::write(text, out)
}

// The text as code points; strict, so that damage is refused.
pub fn to_points(text: &[u8], out: &mut [u32]) -> Result<usize, Refusal>
    ensures { Writes
        (convert_says damaged utf8 code_points (length out.old) text.now)
        (converted utf8 code_points text.now)
        out.old
        out.new
        result }
{
    utf8_check::check(text)?;
    crate::points::write(text, out)
}

// The text in an old page; strict, so that damage is refused, and then a code point that the page lacks.
pub fn to_page(text: &[u8], page: Page, out: &mut [u8]) -> Result<usize, Refusal>
    ensures { Writes
        (to_page_says (table_of page) (length out.old) text.now)
        (converted utf8 (paged (table_of page)) text.now)
        out.old
        out.new
        result }
{
    utf8_check::check(text)?;
    crate::pages::write(text, page, out)
}
