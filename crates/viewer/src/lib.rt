// The two routines that the workshop viewer links: check and repair of a byte text, which reply in numbers.
#![tactic(auto)]

ghost use Rattle.std.specs.Prelude.{◌≡◌};
ghost use Rattle.terms.specs.Told.{told_refusal};
ghost use Rattle.viewer.specs.Replies.{Small, check_number, check_reply, repair_number, Repairs};

use terms::Refusal;

// The check's reply for a refusal.
fn refused(r: Refusal) -> u64
    requires { Small r }
    ensures { result ≡ check_number (told_refusal r) }
{
    match r {
        Refusal::Damaged { start, length, .. } => 4 * start as u64 + length as u64,
        _ => u64::MAX,
    }
}

// 0 if a text is well-formed, else 4 × start + length of its first damage; the largest number where it is over the limit.
#[unsafe(no_mangle)]
pub extern "C" fn moxandril_check(text: &[u8]) -> u64
    ensures { result ≡ check_reply text.now }
{
    match utf8_check::check(text) {
        Ok(()) => 0,
        Err(r) => refused(r),
    }
}

// Repair's reply for a refusal.
fn unwritten(r: Refusal) -> u64
    ensures { result ≡ repair_number (told_refusal r) }
{
    match r {
        Refusal::NoRoom { .. } => u64::MAX - 1,
        _ => u64::MAX,
    }
}

// The bytes written; the largest number where the text is over the limit, one less where the output has no room for them.
#[unsafe(no_mangle)]
pub extern "C" fn moxandril_repair(text: &[u8], out: &mut [u8]) -> u64
    ensures { Repairs text.now out.old out.new result }
{
    match utf8_repair::repair(text, out) {
        Ok(n) => n as u64,
        Err(r) => unwritten(r),
    }
}
