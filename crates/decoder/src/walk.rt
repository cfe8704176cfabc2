// All that is settled of a text: how many places it needs, and what it does. Runs of whole segments go at once.
ghost use Rattle.std.specs.Prelude.{◌≡◌, ◌+◌, ◌*◌, ◌≤◌, length};
ghost use Rattle.theory.specs.Reader.{parts};
ghost use Rattle.terms.specs.Limits.{limit};
ghost use Rattle.utf8.specs.Bytes.{bytes};
ghost use Rattle.decoder.specs.Inside.Acting.{work, Ready, Settles, need, places, lack};

// The tally in decoder_to_utf16 walks alike. One walk by two closures would be no plainer: its contract could only fold what they promise.

use crate::repair::Repair;
use terms::First;
use utf8_check::Pace;

// What the settled segments of a text did, and how many bytes they have.
#[derive(Clone, Copy)]
pub(crate) struct Settled {
    pub repair: Repair,
    pub size: usize,
}

// How many places what is settled of a text takes in repaired form: segments and runs of whole ones by turns, a segment first.
fn need_on(text: &[u8]) -> usize
    requires { length text.now ≤ limit }
    ensures { result ≡ need (parts bytes text.now).done }
{
    let mut n: usize = 0;
    let mut rest = text;
    let mut pace = Pace::START;
    loop {
        let seg = utf8::segment_by(rest, &utf8::CLASSES);
        let size = utf8_pending::settled_size(seg);
        if size == 0 {
            return n;
        }
        let behind = &rest[size..];
        let run = utf8_check::paced_run(behind, pace);
        n += crate::repair::places(seg) + run;
        pace = utf8_check::pace_behind(pace, run);
        rest = &behind[run..];
    }
}

// How many places what is settled of a text takes in repaired form. Where its first run is all of it, no table is made.
fn need_of(text: &[u8]) -> usize
    requires { length text.now ≤ limit }
    ensures { result ≡ need (parts bytes text.now).done }
{
    let run = utf8_check::whole_run(text);
    if run == text.len() {
        return run;
    }
    run + need_on(&text[run..])
}

// How many places a segment and what is settled of a text behind it need, where so many are too few. Nothing is counted where they are
// enough for any text of this length.
pub(crate) fn lacking(seg: First, text: &[u8], given: usize) -> Option<usize>
    requires { (places seg ≤ 3 * limit) × (length text.now ≤ limit) }
    ensures { result ≡ lack (places seg + need (parts bytes text.now).done) given }
{
    let first = crate::repair::places(seg);
    if first + crate::repair::MARK * text.len() <= given {
        return None;
    }
    let needed = first + need_of(text);
    if given < needed {
        return Some(needed);
    }
    None
}

// Each settled segment of a text acts in its turn: segments and runs of whole ones by turns, a segment first.
fn walk_on(text: &[u8], repair: Repair, room: usize, out: &mut [u8], list: &mut [u32]) -> Settled
    requires { Ready room (parts bytes text.now).done (work repair out.old list.old) }
    ensures { Settles room text.now (work repair out.old list.old)
        (work result.repair out.new list.new) result.size }
{
    let mut repair = repair;
    let mut rest = text;
    let mut pace = Pace::START;
    loop {
        let seg = utf8::segment_by(rest, &utf8::CLASSES);
        let size = utf8_pending::settled_size(seg);
        if size == 0 {
            return Settled {
                repair,
                size: text.len() - rest.len(),
            };
        }
        repair = repair.act(seg, rest, room, out, list);
        let behind = &rest[size..];
        let run = utf8_check::paced_run(behind, pace);
        repair = repair.pass(&behind[..run], out);
        pace = utf8_check::pace_behind(pace, run);
        rest = &behind[run..];
    }
}

// Each settled segment of a text acts in its turn. The first run goes before all others: in most pieces it is all there is, and no
// table is made.
pub(crate) fn walk(
    text: &[u8],
    repair: Repair,
    room: usize,
    out: &mut [u8],
    list: &mut [u32],
) -> Settled
    requires { Ready room (parts bytes text.now).done (work repair out.old list.old) }
    ensures { Settles room text.now (work repair out.old list.old)
        (work result.repair out.new list.new) result.size }
{
    if text.len() == 0 {
        return Settled { repair, size: 0 };
    }
    let run = utf8_check::whole_run(text);
    let first = repair.pass(&text[..run], out);
    if run == text.len() {
        return Settled {
            repair: first,
            size: run,
        };
    }
    let all = walk_on(&text[run..], first, room, out, list);
    Settled {
        repair: all.repair,
        size: run + all.size,
    }
}
