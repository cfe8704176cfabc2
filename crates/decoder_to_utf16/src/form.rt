// Texts of bytes as units, by the conversion that a whole text has.
ghost use Rattle.std.specs.Prelude.{◌≡◌, ◌++◌, ◌≤◌, length};
ghost use Rattle.terms.specs.Form.{converted};
ghost use Rattle.terms.specs.Limits.{limit};
ghost use Rattle.terms.specs.Writing.{Writes, roomed};
ghost use Rattle.utf16.specs.Scalar.{utf16};
ghost use Rattle.utf8.specs.Scalar.{utf8};

use terms::Refusal;

// How many places U+FFFD takes.
pub(crate) const MARK: usize = 1;

// How many units a text takes: what its conversion asks for where there are no places.
fn places(text: &[u8]) -> usize
    requires { length text.now ≤ limit }
    ensures { result ≡ length (converted utf8 utf16 text.now) }
{
    let mut none = [0u16; 1];
    match convert_from_utf8::repair_to_units(text, &mut none[..0]) {
        Ok(_) => 0,
        Err(why) => why.first_value(),
    }
}

// Two texts as units, one behind the other. The first is short, and mostly there is none; it is written last, when there is room for both.
pub(crate) fn write_both(head: &[u8], rest: &[u8], out: &mut [u16]) -> Result<usize, Refusal>
    requires { (length head.now ≤ limit) × (length rest.now ≤ limit) }
    ensures { Writes
        (roomed (length out.old) (converted utf8 utf16 head.now ++ converted utf8 utf16 rest.now))
        (converted utf8 utf16 head.now ++ converted utf8 utf16 rest.now)
        out.old
        out.new
        result }
{
    if head.len() == 0 {
        return convert_from_utf8::repair_to_units(rest, out);
    }
    if rest.len() == 0 {
        return convert_from_utf8::repair_to_units(head, out);
    }
    let at = places(head);
    if out.len() < at {
        return Err(Refusal::NoRoom {
            needed: at + places(rest),
        });
    }
    match convert_from_utf8::repair_to_units(rest, &mut out[at..]) {
        Ok(n) => {
            let _ = convert_from_utf8::repair_to_units(head, out);
            Ok(at + n)
        }
        Err(why) => Err(Refusal::NoRoom {
            needed: at + why.first_value(),
        }),
    }
}
