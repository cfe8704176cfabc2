// The audit of an index.
#![tactic(auto)]

ghost use Rattle.std.specs.Prelude.{◌≡◌};
ghost use Rattle.index_audit.specs.Audits.{audit_says};

use index_checkpoint::SPACING;
use place::{Bytes, Offset, Place};
use terms::Decoder;

// The audit: the text is within the limit, the index is long enough, and each of its checkpoints is the last place at or
// before its byte, to which the text is walked from the one before.
pub fn audit(text: &[u8], row: &[u32]) -> bool
    ensures { result ≡ audit_says text.now row.now }
{
    if Decoder::LIMIT < text.len() {
        return false;
    }
    if row.len() < index_checkpoint::needed(text.len()) {
        return false;
    }
    let n = index_checkpoint::marks(text.len());
    let mut p = Place::start();
    for k in 0..n {
        match place_cut::last(&text[p.bytes..], p, Offset::Byte(Bytes(SPACING * k))) {
            Ok(q) if index_checkpoint::checkpoint(row, k) == q => p = q,
            _ => return false,
        }
    }
    true
}
