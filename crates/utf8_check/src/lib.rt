// Strict reading of UTF-8: the whole segments before the first damage of a byte text, and the check.
#![tactic(auto)]

ghost use Rattle.std.specs.Prelude.{◌≡◌};
ghost use Rattle.terms.specs.Told.{told_checked};
ghost use Rattle.terms.specs.Strict.{check_says};
ghost use Rattle.utf8.specs.Bytes.{bytes};
ghost use Rattle.utf8_check.specs.Run.{whole_run};

use terms::{Decoder, Refusal};

mod pace;

pub use pace::{Pace, pace_behind, paced_run, wait_behind};

// How many bytes come before the first damage? All of them, where there is none.
pub fn whole_run(text: &[u8]) -> usize
    ensures { result ≡ whole_run text.now }
{
    let n = utf8_scan::standing(text);
    n - utf8_scan::waiting(text, n)
}

// Is a text well-formed? If not, its first damage is told.
pub fn check(text: &[u8]) -> Result<(), Refusal>
    ensures { told_checked result ≡ check_says bytes text.now }
{
    if Decoder::LIMIT < text.len() {
        return Err(Refusal::OverLimit);
    }
    let start = whole_run(text);
    if start == text.len() {
        return Ok(());
    }
    let damage = utf8::segment(&text[start..]);
    match damage.cause() {
        Some(cause) => Err(Refusal::damaged(start, damage.size(), cause)),
        None => Ok(()),
    }
}
