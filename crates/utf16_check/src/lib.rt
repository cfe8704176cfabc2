// Strict reading of UTF-16: the check, which passes over blocks of units that stand in pairs.
#![tactic(auto)]

ghost use Rattle.std.specs.Prelude.{◌≡◌, true, ◌≤◌, length};
ghost use Rattle.terms.specs.Told.{bit, told_checked};
ghost use Rattle.terms.specs.Strict.{check_says};
ghost use Rattle.utf16.specs.Units.{units};
ghost use Rattle.utf16_check.specs.Inside.Paired.{is_first, is_second, Paired, WholeTo};

use terms::{Cause, Decoder, First, Refusal};

// Is a unit the first half of a pair?
fn is_first(x: u16) -> bool
    ensures { result ≡ is_first x }
{
    matches!(x, 0xD800..=0xDBFF)
}

// Is a unit the second half of a pair?
fn is_second(x: u16) -> bool
    ensures { result ≡ is_second x }
{
    matches!(x, 0xDC00..=0xDFFF)
}

// Is each of 128 units a first half exactly if the one behind it is a second half?
fn is_paired(text: &[u16; 129]) -> bool
    ensures { result ≡ true → Paired text.now 128 }
{
    // All are tested, and by their index: a loop that ends at the first that is not so takes eight times as long, a zip up to a third more.
    let mut paired = true;
    for k in 0..128 {
        paired &= is_first(text[k]) == is_second(text[k + 1]);
    }
    paired
}

// So many units of a text, in blocks, are whole segments. There may be more.
fn whole_blocks(text: &[u16]) -> usize
    ensures { WholeTo text.now result }
{
    let mut at: usize = 0;
    while let Some(units) = text[at..].first_chunk::<129>() {
        if is_second(units[0]) || !is_paired(units) {
            return at;
        }
        at += 128 + usize::from(is_second(units[128]));
    }
    at
}

// Is a text well-formed? If not, its first damage is told.
pub fn check(text: &[u16]) -> Result<(), Refusal>
    ensures { told_checked result ≡ check_says units text.now }
{
    if Decoder::LIMIT < text.len() {
        return Err(Refusal::OverLimit);
    }
    let mut at: usize = 0;
    let mut block: usize = 0;
    loop {
        // where a block has damage, its length is read by segments before the next is tried
        if block <= at {
            at += whole_blocks(&text[at..]);
            block = at + 128;
        }
        match utf16::segment(&text[at..]) {
            First::Nothing => return Ok(()),
            First::Whole(n) => at += n,
            First::Damage(n, cause) => return Err(Refusal::damaged(at, n, cause)),
            First::Begun(n) => return Err(Refusal::damaged(at, n, Cause::ENDED)),
        }
    }
}
