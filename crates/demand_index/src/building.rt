// An index that is built in pieces: the calls of the builder one after another. A refused piece is fed with the next one.
ghost use Rattle.std.specs.Prelude.{◌≡◌, get_or};
ghost use Rattle.demand_index.specs.Inside.Steps.{may_refuse, Builds};
ghost use Rattle.demand_index.specs.Builds.{finished, built};

use index_build::Builder;
use terms::Decoder;

// A build is refused only where the text is over the limit or the row is too short for its index.
pub(crate) fn may_refuse(long: usize, room: usize) -> bool
    ensures { result ≡ may_refuse long room }
{
    Decoder::LIMIT < long || room < index_checkpoint::needed(long)
}

// Cut position k; behind the last one the end of the text.
fn cut_at(cuts: &[usize], k: usize, end: usize) -> usize
    ensures { result ≡ get_or cuts.now k end }
{
    cuts.get(k).copied().unwrap_or(end)
}

// The end of the text: was it granted?
fn end(state: Builder, row: &mut [u32]) -> bool
    ensures { Builds (finished state row.old) row.new result }
{
    index_build::finish(state, row).answer.is_ok()
}

// A piece to each cut position and then the rest, and the end where all of the text was taken: was the index built?
pub(crate) fn build_in_pieces(text: &[u8], cuts: &[usize], row: &mut [u32]) -> bool
    ensures { Builds (built text.now cuts.now row.old) row.new result }
{
    let mut state = Builder::fresh();
    let mut from: usize = 0;
    for k in 0..cuts.len() + 1 {
        let to = demand_shared::bring(cut_at(cuts, k, text.len()), from, text.len());
        let fed = index_build::feed(state, &text[from..to], row);
        state = fed.state;
        // the next piece begins behind one that was taken
        from = if fed.answer.is_ok() { to } else { from };
    }
    if from < text.len() {
        return false;
    }
    end(state, row)
}
