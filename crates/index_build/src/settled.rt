// What of a text is settled while more may follow: whole segments and damage, but no 0D that ends the text.
ghost use Rattle.std.specs.Prelude.{◌≡◌, []};
ghost use Rattle.place.specs.Lines.{waits_behind};
ghost use Rattle.index_build.specs.Inside.Steps.{settled_by, is_left};
ghost use Rattle.index_build.specs.Inside.Runs.{settled_run};

use terms::First;

// Is this text a lone 0D, which may be the beginning of 0D 0A?
fn is_return(text: &[u8]) -> bool
    ensures { result ≡ waits_behind text.now [] }
{
    text.len() == 1 && text[0] == 0x0D
}

// Is nothing of this text settled, as it is empty or a lone 0D?
pub(crate) fn is_left(text: &[u8]) -> bool
    ensures { result ≡ is_left text.now }
{
    text.is_empty() || is_return(text)
}

// How many bytes of a text are settled by the segment that is told to stand first in it.
pub(crate) fn settled_by(text: &[u8], seg: First) -> usize
    ensures { result ≡ settled_by text.now seg }
{
    match utf8_pending::settled_size(seg) {
        1 if is_return(text) => 0,
        size => size,
    }
}

// How many bytes of a text are whole segments and settled: all before the first damage, but for a 0D that ends the text.
pub(crate) fn settled_run(text: &[u8]) -> usize
    ensures { result ≡ settled_run text.now }
{
    let run = utf8_check::whole_run(text);
    if run == 0 {
        return run;
    }
    if is_return(&text[run - 1..]) {
        return run - 1;
    }
    run
}
