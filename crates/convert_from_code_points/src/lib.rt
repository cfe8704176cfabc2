// A whole text of code points as bytes and as units, strict, into a lent output.
#![tactic(auto)]

ghost use Rattle.std.specs.Prelude.{length};
ghost use Rattle.terms.specs.Form.{converted};
ghost use Rattle.terms.specs.Writing.{Writes, convert_says};
ghost use Rattle.utf8.specs.Scalar.{utf8};
ghost use Rattle.utf16.specs.Scalar.{utf16};
ghost use Rattle.code_points.specs.Points.{code_points, no_scalar};

use terms::Refusal;

// The text as bytes; strict, so that a number that is no scalar value is refused.
pub fn to_bytes(text: &[u32], out: &mut [u8]) -> Result<usize, Refusal>
    ensures { Writes
        (convert_says no_scalar code_points utf8 (length out.old) text.now)
        (converted code_points utf8 text.now)
        out.old
        out.new
        result }
{
    code_points::check(text)?;
    convert_point::repair::<u32, u8>(text, out)
}

// The text as units; strict, so that a number that is no scalar value is refused.
pub fn to_units(text: &[u32], out: &mut [u16]) -> Result<usize, Refusal>
    ensures { Writes
        (convert_says no_scalar code_points utf16 (length out.old) text.now)
        (converted code_points utf16 text.now)
        out.old
        out.new
        result }
{
    code_points::check(text)?;
    convert_point::repair::<u32, u16>(text, out)
}
