// The plain search: each place of the entry in turn.
ghost use Rattle.std.specs.Prelude.{◌≡◌};
ghost use Rattle.find.specs.Match.{first_match};

use crate::compare::agree;

pub(crate) fn search(entry: &[u8], needle: &[u8]) -> Option<usize>
    ensures { result ≡ first_match entry.now needle.now }
{
    let m = needle.len();
    if entry.len() < m {
        return None;
    }
    for place in 0..entry.len() - m + 1 {
        if m <= agree(entry, needle, place, 0, m) {
            return Some(place);
        }
    }
    None
}
