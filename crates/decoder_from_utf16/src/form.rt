// Texts of units as bytes, by the conversion that a whole text has.
ghost use Rattle.std.specs.Prelude.{◌≡◌, ◌++◌, ◌≤◌, length};
ghost use Rattle.terms.specs.Form.{converted};
ghost use Rattle.terms.specs.Limits.{limit};
ghost use Rattle.terms.specs.Writing.{Writes, roomed};
ghost use Rattle.utf8.specs.Scalar.{utf8};
ghost use Rattle.utf16.specs.Scalar.{utf16};

use terms::Refusal;

// How many places U+FFFD takes.
pub(crate) const MARK: usize = 3;

// How many bytes a text takes: what its conversion asks for where there are no places.
fn places(text: &[u16]) -> usize
    requires { length text.now ≤ limit }
    ensures { result ≡ length (converted utf16 utf8 text.now) }
{
    let mut none = [0u8; 1];
    match convert_from_utf16::repair_to_bytes(text, &mut none[..0]) {
        Ok(_) => 0,
        Err(why) => why.first_value(),
    }
}

// Two texts as bytes, one behind the other. The first is short, and mostly there is none; it is written last, when there is room for both.
pub(crate) fn write_both(head: &[u16], rest: &[u16], out: &mut [u8]) -> Result<usize, Refusal>
    requires { (length head.now ≤ limit) × (length rest.now ≤ limit) }
    ensures { Writes
        (roomed (length out.old) (converted utf16 utf8 head.now ++ converted utf16 utf8 rest.now))
        (converted utf16 utf8 head.now ++ converted utf16 utf8 rest.now)
        out.old
        out.new
        result }
{
    if head.len() == 0 {
        return convert_from_utf16::repair_to_bytes(rest, out);
    }
    let at = places(head);
    if out.len() < at {
        return Err(Refusal::NoRoom {
            needed: at + places(rest),
        });
    }
    match convert_from_utf16::repair_to_bytes(rest, &mut out[at..]) {
        Ok(n) => {
            let _ = convert_from_utf16::repair_to_bytes(head, out);
            Ok(at + n)
        }
        Err(why) => Err(Refusal::NoRoom {
            needed: at + why.first_value(),
        }),
    }
}
