// A whole text in another form: its need, and itself in a lent output.

ghost use Rattle.std.specs.Prelude.{◌≡◌, ◌≤◌, length};
ghost use Rattle.terms.specs.Limits.{limit};
ghost use Rattle.terms.specs.Form.{converted};
ghost use Rattle.terms.specs.Writing.{Writes, repair_says};
ghost use Rattle.convert_point.specs.Target.{form_of};
ghost use Rattle.convert_point.specs.Puts.{Puts};

use crate::element::Element;
use terms::{Decoder, Refusal};

// How many elements of another form a text takes, U+FFFD for each damage.
fn need<S: Element, T: Element>(text: &[S]) -> usize
    requires { length text.now ≤ limit }
    ensures { result ≡ length (converted (form_of S.target) (form_of T.target) (S.numbers text.now)) }
{
    let mut rest = text;
    let mut total: usize = 0;
    while let Some(p) = S::point(rest) {
        total += T::places(p.number);
        rest = &rest[p.size..];
    }
    total
}

// The text in another form, U+FFFD for each damage.
fn write<S: Element, T: Element>(text: &[S], out: &mut [T]) -> usize
    requires { length (converted (form_of S.target) (form_of T.target) (S.numbers text.now)) ≤ length out.old }
    ensures { Puts
        (converted (form_of S.target) (form_of T.target) (S.numbers text.now))
        (T.numbers out.old)
        (T.numbers out.new)
        result }
{
    let mut rest = text;
    let mut done: usize = 0;
    while let Some(p) = S::point(rest) {
        done += T::put(&mut out[done..], p.number);
        rest = &rest[p.size..];
    }
    done
}

// The text in another form, U+FFFD for each damage; refused where the text is over the limit, or where the output has no room for it.
pub fn repair<S: Element, T: Element>(text: &[S], out: &mut [T]) -> Result<usize, Refusal>
    ensures { Writes
        (repair_says (length out.old) (S.numbers text.now) (converted (form_of S.target) (form_of T.target) (S.numbers text.now)))
        (converted (form_of S.target) (form_of T.target) (S.numbers text.now))
        (T.numbers out.old)
        (T.numbers out.new)
        result }
{
    if Decoder::LIMIT < text.len() {
        return Err(Refusal::OverLimit);
    }
    let needed = need::<S, T>(text);
    if out.len() < needed {
        return Err(Refusal::NoRoom { needed });
    }
    Ok(write(text, out))
}
