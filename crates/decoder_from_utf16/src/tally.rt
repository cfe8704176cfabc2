// What is settled of a text of units is tallied: its units in whole segments and in damage, its damages, and their entries.
ghost use Rattle.std.specs.Prelude.{◌≡◌, true, ◌≤◌, ◌<◌, length, take};
ghost use Rattle.terms.specs.Limits.{limit};
ghost use Rattle.utf16.specs.Units.{units};
ghost use Rattle.utf16.specs.Alone.{all_alone};
ghost use Rattle.decoder_shared.specs.Inside.Steps.{Fits, Settles};
ghost use Rattle.decoder_shared.specs.Inside.Tallying.{log_of};

use decoder_shared::{Settled, Tally};
use terms::First;

// How many units are tried at once.
const BLOCK: usize = 32;

// So many units at the start of a text stand alone, by whole blocks; none are looked for where a block is not due.
fn alone_run(text: &[u16], due: bool) -> usize
    ensures { (result ≤ length text.now) × (all_alone (take result text.now) ≡ true) }
{
    if !due {
        return 0;
    }
    let mut rest = text;
    while let Some((block, behind)) = rest.split_first_chunk::<BLOCK>() {
        if !utf16::are_alone(block) {
            break;
        }
        rest = behind;
    }
    text.len() - rest.len()
}

// Where the next block is due: where one has a half, its length is read by segments before another is tried.
fn next_block(block: usize, at: usize) -> usize
    requires { at ≤ limit }
    ensures { at < result }
{
    if block <= at {
        return at + BLOCK;
    }
    block
}

// Each settled segment of a text is tallied in its turn; units that stand alone go by blocks. It keeps its place, at which a block is due.
pub(crate) fn walk(text: &[u16], tally: Tally, room: usize, list: &mut [u32]) -> Settled
    requires { Fits room (length text.now) (log_of tally list.old) }
    ensures { Settles units room text.now (log_of tally list.old) (log_of result.tally list.new) result.size }
{
    let mut tally = tally;
    let mut at: usize = 0;
    let mut block: usize = 0;
    loop {
        let run = alone_run(&text[at..], block <= at);
        tally = tally.pass(run);
        at += run;
        block = next_block(block, at);
        match utf16::segment(&text[at..]) {
            First::Nothing => return Settled { tally, size: at },
            First::Whole(n) => {
                tally = tally.pass(n);
                at += n;
            }
            First::Damage(n, cause) => {
                tally = tally.strike(n, cause, room, list);
                at += n;
            }
            First::Begun(_) => return Settled { tally, size: at },
        }
    }
}
