// A whole byte text repaired into bytes, into a lent output.
#![tactic(auto)]

ghost use Rattle.std.specs.Prelude.{◌≡◌, ◌++◌, ◌≤◌, ◌<◌, length, take, drop};
ghost use Rattle.terms.specs.Limits.{limit};
ghost use Rattle.terms.specs.Form.{replacement, repaired, converted};
ghost use Rattle.terms.specs.Told.{told_first, first_says, size_of};
ghost use Rattle.terms.specs.Writing.{Writes, roomed, repair_says};
ghost use Rattle.utf8.specs.Bytes.{bytes};
ghost use Rattle.utf8.specs.Scalar.{sequence, utf8};
ghost use Rattle.utf8_check.specs.Run.{whole_run};
ghost use Rattle.convert_point.specs.Puts.{Puts};
ghost use Rattle.convert_point.specs.Inside.Passes.{PassesTo};
ghost use Rattle.utf8_repair.specs.Inside.Places.{places_of};

use convert_point::Target;
use terms::{Decoder, First, Refusal};
use utf8_check::Pace;

// How many bytes a segment has in repaired form.
fn places(seg: First) -> usize
    ensures { result ≡ places_of seg }
{
    match seg {
        First::Nothing => 0,
        First::Whole(n) => n,
        First::Damage(_, _) | First::Begun(_) => 3,
    }
}

// How many bytes the repaired form has: segments and runs of whole ones by turns, a segment first.
fn need_on(text: &[u8]) -> usize
    requires { length text.now ≤ limit }
    ensures { result ≡ length (converted utf8 utf8 text.now) }
{
    let mut rest = text;
    let mut total: usize = 0;
    let mut pace = Pace::START;
    while 0 < rest.len() {
        let seg = utf8::segment_by(rest, &utf8::CLASSES);
        let size = seg.size();
        let behind = &rest[size..];
        let run = utf8_check::paced_run(behind, pace);
        total += places(seg) + run;
        pace = utf8_check::pace_behind(pace, run);
        rest = &behind[run..];
    }
    total
}

// How many bytes the repaired form has, where so many at the start are the first run.
fn need_bytes(text: &[u8], run: usize) -> usize
    requires { (length text.now ≤ limit) × (run ≡ whole_run text.now) }
    ensures { result ≡ length (converted utf8 utf8 text.now) }
{
    run + need_on(&text[run..])
}

// The first segment, repaired: a whole one stays as it is, and U+FFFD stands for a damage. How many bytes it takes then.
fn mend(text: &[u8], seg: First, out: &mut [u8]) -> usize
    requires text_nonzero { (0 < length text.now) × (length (converted utf8 utf8 text.now) ≤ length out.old) }
    requires told { told_first seg ≡ first_says bytes text.now }
    ensures { PassesTo utf8 utf8 text.now out.old out.new (size_of seg) result }
{
    match seg {
        First::Nothing => 0,
        First::Whole(n) => pass(&text[..n], out),
        First::Damage(_, _) | First::Begun(_) => mark(out),
    }
}

// The bytes of a whole segment.
fn pass(seg: &[u8], out: &mut [u8]) -> usize
    requires { length seg.now ≤ length out.old }
    ensures { Puts seg.now out.old out.new result }
{
    copy::copy(seg, out);
    seg.len()
}

// U+FFFD for a damage.
fn mark(out: &mut [u8]) -> usize
    requires { 3 ≤ length out.old }
    ensures { Puts (sequence replacement) out.old out.new result }
{
    out[0] = 0xEF;
    out[1] = 0xBF;
    out[2] = 0xBD;
    3
}

// The bytes of a run. Where damage is dense most runs are none, and not worth the call.
fn copy_run(run: &[u8], out: &mut [u8])
    ensures { out.new
        ≡ take (length out.old) run.now ++ drop (length run.now) out.old }
{
    if run.len() == 0 {
        return;
    }
    copy::copy(run, out);
}

// The repaired form: segments and runs of whole ones by turns, a segment first.
fn write_on(text: &[u8], out: &mut [u8]) -> usize
    requires { length (converted utf8 utf8 text.now) ≤ length out.old }
    ensures { Puts (converted utf8 utf8 text.now) out.old out.new result }
{
    let mut rest = text;
    let mut done: usize = 0;
    let mut pace = Pace::START;
    while 0 < rest.len() {
        let seg = utf8::segment_by(rest, &utf8::CLASSES);
        let size = seg.size();
        let to = done + mend(rest, seg, &mut out[done..]);
        let behind = &rest[size..];
        let run = utf8_check::paced_run(behind, pace);
        copy_run(&behind[..run], &mut out[to..]);
        done = to + run;
        pace = utf8_check::pace_behind(pace, run);
        rest = &behind[run..];
    }
    done
}

// The repaired form, where so many bytes at the start are the first run: mostly that is all there is, and no table is made.
fn write_bytes(text: &[u8], run: usize, out: &mut [u8]) -> usize
    requires { (run ≡ whole_run text.now) × (length (converted utf8 utf8 text.now) ≤ length out.old) }
    ensures { Puts (converted utf8 utf8 text.now) out.old out.new result }
{
    copy::copy(&text[..run], out);
    if run == text.len() {
        return run;
    }
    run + write_on(&text[run..], &mut out[run..])
}

// A text with no damage stays as it is, and is not looked at a second time.
fn repair_whole(text: &[u8], out: &mut [u8]) -> Result<usize, Refusal>
    ensures { Writes
        (roomed (length out.old) text.now)
        text.now
        out.old
        out.new
        result }
{
    let bytes = text.len();
    if out.len() < bytes {
        return Err(Refusal::NoRoom { needed: bytes });
    }
    copy::copy(text, out);
    Ok(bytes)
}

// The repaired form of a text: whole segments as they are, U+FFFD for each damage.
pub fn repair(text: &[u8], out: &mut [u8]) -> Result<usize, Refusal>
    ensures { Writes
        (repair_says (length out.old) text.now (repaired utf8 text.now))
        (repaired utf8 text.now)
        out.old
        out.new
        result }
{
    if Decoder::LIMIT < text.len() {
        return Err(Refusal::OverLimit);
    }
    let run = utf8_check::whole_run(text);
    if convert_point::most(Target::Bytes, Target::Bytes, text.len()) <= out.len() {
        return Ok(write_bytes(text, run, out));
    }
    if run == text.len() {
        return repair_whole(text, out);
    }
    let bytes = need_bytes(text, run);
    if out.len() < bytes {
        return Err(Refusal::NoRoom { needed: bytes });
    }
    Ok(write_bytes(text, run, out))
}
