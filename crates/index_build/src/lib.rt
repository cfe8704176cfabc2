// The builder of an index from a byte text that comes in pieces.
#![tactic(auto)]

ghost use Rattle.std.specs.Prelude.{◌≡◌, ◌+◌, ◌≤◌, length};
ghost use Rattle.theory.specs.Index.{start_marked};
ghost use Rattle.utf8.specs.Bytes.{bytes};
ghost use Rattle.utf8.specs.Classes.{by_classes};
ghost use Rattle.place.specs.Measures.{ruler};
ghost use Rattle.place.specs.Lookup.{four_counts};
ghost use Rattle.index_checkpoint.specs.Checkpoints.{spacing, width};
ghost use Rattle.index_build.specs.Building.{ended, Feeds, Finishes};
ghost use Rattle.index_build.specs.Inside.Steps.{Ahead, Advances, keeping, Walks, Seams, Closes, Granted, stream_of, joined, grown};
ghost use Rattle.index_build.specs.Inside.Steps.{Stretches, Stretched};

use place::Place;

mod run;
mod settled;
mod state;

pub use state::{Builder, Built};

// Checkpoint 0, which every call writes: the start of the text.
fn mark_start(row: &mut [u32])
    requires { width ≤ length row.old }
    ensures { row.new ≡ (start_marked ruler four_counts width spacing row.old).row }
{
    index_checkpoint::mark(row, 0, Place::start());
}

// The place behind a segment of so many bytes that ends so many lines, one or none; the checkpoint due on the way is written.
fn advance(p: Place, size: usize, ends: usize, row: &mut [u32]) -> Place
    requires { Ahead p size ends row.old }
    ensures { Advances p size ends row.old row.new result }
{
    let q = Place {
        bytes: p.bytes + size,
        units: p.units + place::units_of(size),
        points: p.points + 1,
        lines: p.lines + ends,
    };
    index_checkpoint::pass(p, q, row);
    q
}

// The state that keeps what is left behind a place.
fn keep(left: &[u8], p: Place, taken: usize) -> Builder
    ensures { result ≡ keeping left.now p taken }
{
    let held = utf8_pending::hold(left);
    Builder {
        held,
        pending: left.len(),
        taken,
        units: p.units,
        points: p.points,
        lines: p.lines,
    }
}

// At most so many settled segments are walked over, one by one.
fn stretch(text: &[u8], from: Place, most: usize, row: &mut [u32], classes: &[u8; 256]) -> Place
    requires stretches { Stretches from text.now most row.old }
    requires classes_value { by_classes classes.now ≡ bytes }
    ensures { Stretched text.now from row.old row.new result }
{
    let mut p = from;
    let mut at: usize = 0;
    for k in 0..most {
        let size = settled::settled_by(&text[at..], utf8::segment_by(&text[at..], classes));
        if size == 0 {
            return p;
        }
        p = advance(p, size, utf8_count::end_first(&text[at..]), row);
        at += size;
    }
    p
}

// All that is settled of a text is walked over from a place on, and the rest is kept: some segments one by one, and the run of
// whole segments behind them at once.
fn walk_by(text: &[u8], from: Place, taken: usize, row: &mut [u32], classes: &[u8; 256]) -> Builder
    requires walks { Walks from text.now row.old }
    requires classes_value { by_classes classes.now ≡ bytes }
    ensures { Closes taken (stream_of from row.old text.now) row.new result }
{
    let mut p = from;
    let mut at: usize = 0;
    let mut wait: usize = 1;
    loop {
        let q = stretch(&text[at..], p, wait, row, classes);
        if q.bytes == p.bytes {
            return keep(&text[at..], q, taken);
        }
        let start = q.bytes - from.bytes;
        let run = settled::settled_run(&text[start..]);
        p = run::pass_run(&text[start..], run, q, row);
        at = start + run;
        wait = utf8_check::wait_behind(wait, run);
    }
}

// The same, with the table made for it.
fn walk_on(text: &[u8], from: Place, taken: usize, row: &mut [u32]) -> Builder
    requires { Walks from text.now row.old }
    ensures { Closes taken (stream_of from row.old text.now) row.new result }
{
    walk_by(text, from, taken, row, &utf8::CLASSES)
}

// The same, by the run that the text begins with: no table is made where that is all of it.
fn walk(text: &[u8], from: Place, taken: usize, row: &mut [u32]) -> Builder
    requires { Walks from text.now row.old }
    ensures { Closes taken (stream_of from row.old text.now) row.new result }
{
    let run = settled::settled_run(text);
    let p = run::pass_run(text, run, from, row);
    if settled::is_left(&text[run..]) {
        return keep(&text[run..], p, taken);
    }
    walk_on(&text[run..], p, taken, row)
}

// A piece is taken behind what is pending: their seam tells whether anything is settled yet.
fn join(seam: &[u8], state: Builder, piece: &[u8], row: &mut [u32]) -> Builder
    requires { Seams state piece.now seam.now row.old }
    ensures { Closes (state.taken + length piece.now) (joined state row.old piece.now)
        row.new result }
{
    let taken = state.taken + piece.len();
    let p = state.settled_place();
    if state.pending == 0 {
        return walk(piece, p, taken, row);
    }
    let size = settled::settled_by(seam, utf8::segment(seam));
    if size == 0 {
        return keep(seam, p, taken);
    }
    let q = advance(p, size, utf8_count::end_first(seam), row);
    let from = size - state.pending;
    walk(&piece[from..], q, taken, row)
}

// A state that may take a piece takes it.
fn take(state: Builder, piece: &[u8], row: &mut [u32]) -> Builder
    requires { Granted state (length piece.now) row.old }
    ensures { grown state piece.now row.old row.new result }
{
    mark_start(row);
    let held = state.held;
    let seam = utf8_pending::seam_of(held, state.pending, piece);
    let bytes = seam.bytes;
    let n = seam.size;
    join(&bytes[..n], state, piece, row)
}

// A state that may end settles its pending bytes, one segment if there are any.
fn end(state: Builder, row: &mut [u32])
    requires { Granted state 0 row.old }
    ensures { row.new ≡ (ended state row.old).row }
{
    mark_start(row);
    let n = state.pending;
    if n == 0 {
        return;
    }
    let held = state.held;
    let ends = utf8_count::end_first(&held[..n]);
    advance(state.settled_place(), n, ends, row);
}

// Takes a piece: the checkpoints up to the last place that is settled are written.
pub fn feed(state: Builder, piece: &[u8], row: &mut [u32]) -> Built
    ensures { Feeds state piece.now row.old row.new result }
{
    if let Err(why) = state.check(piece.len(), row.len()) {
        return Built {
            answer: Err(why),
            state,
        };
    }
    Built {
        answer: Ok(()),
        state: take(state, piece, row),
    }
}

// Ends the text: the pending bytes are settled, and the state is fresh again.
pub fn finish(state: Builder, row: &mut [u32]) -> Built
    ensures { Finishes state row.old row.new result }
{
    if let Err(why) = state.check(0, row.len()) {
        return Built {
            answer: Err(why),
            state,
        };
    }
    end(state, row);
    Built {
        answer: Ok(()),
        state: Builder::fresh(),
    }
}
