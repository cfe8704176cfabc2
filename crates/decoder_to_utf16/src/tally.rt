// What is settled of a byte text is tallied: its bytes in whole segments and in damage, its damages, and their entries.
ghost use Rattle.std.specs.Prelude.{length};
ghost use Rattle.utf8.specs.Bytes.{bytes};
ghost use Rattle.decoder_shared.specs.Inside.Steps.{Fits, Settles};
ghost use Rattle.decoder_shared.specs.Inside.Tallying.{log_of};

use decoder_shared::{Settled, Tally};
use utf8_check::Pace;

// Each settled segment of a text is tallied in its turn: segments and runs of whole ones by turns, a segment first.
fn walk_on(text: &[u8], tally: Tally, room: usize, list: &mut [u32]) -> Settled
    requires { Fits room (length text.now) (log_of tally list.old) }
    ensures { Settles bytes room text.now (log_of tally list.old) (log_of result.tally list.new) result.size }
{
    let mut tally = tally;
    let mut rest = text;
    let mut pace = Pace::START;
    loop {
        let seg = utf8::segment_by(rest, &utf8::CLASSES);
        let size = utf8_pending::settled_size(seg);
        if size == 0 {
            return Settled {
                tally,
                size: text.len() - rest.len(),
            };
        }
        tally = tally.take(seg, room, list);
        let behind = &rest[size..];
        let run = utf8_check::paced_run(behind, pace);
        tally = tally.pass(run);
        pace = utf8_check::pace_behind(pace, run);
        rest = &behind[run..];
    }
}

// Each settled segment of a text is tallied in its turn. The first run goes before all others: in most pieces it is all there is, and no
// table is made.
pub(crate) fn walk(text: &[u8], tally: Tally, room: usize, list: &mut [u32]) -> Settled
    requires { Fits room (length text.now) (log_of tally list.old) }
    ensures { Settles bytes room text.now (log_of tally list.old) (log_of result.tally list.new) result.size }
{
    if text.len() == 0 {
        return Settled { tally, size: 0 };
    }
    let run = utf8_check::whole_run(text);
    let first = tally.pass(run);
    if run == text.len() {
        return Settled {
            tally: first,
            size: run,
        };
    }
    let all = walk_on(&text[run..], first, room, list);
    Settled {
        tally: all.tally,
        size: run + all.size,
    }
}
