// The elements of a text, which are bytes, units or code points: what stands first in a text of them, and a code point in them.

ghost use Rattle.std.specs.Prelude.{◌≡◌, ℕ, List, length};
ghost use Rattle.terms.specs.Form.{first_point};
ghost use Rattle.convert_point.specs.declared.Target.{Target};
ghost use Rattle.convert_point.specs.declared.Target.TheVariants.{Bytes, Units, Points};
ghost use Rattle.convert_point.specs.Target.{form_of};
ghost use Rattle.convert_point.specs.Puts.{fitting, Puts};
ghost use Rattle.convert_point.specs.Numbers.{Numbers, themselves};

use terms::Point;

// An element of a text.
pub trait Element: Copy {
    // The form of a text of such elements.
    ghost target: { Target };

    // The numbers that elements are.
    ghost numbers: { List Self → List ℕ };

    // The code point that stands first in a text, if there is one.
    fn point(text: &[Self]) -> Option<Point>
        ensures { result ≡ first_point (form_of target) (numbers text.now) };

    // How many elements a code point takes.
    fn places(c: u32) -> usize
        ensures { result ≡ length ((form_of target).write c) };

    // The elements of a code point at the start of an output, and their number; none without room for them, or above 0x10FFFF.
    fn put(out: &mut [Self], c: u32) -> usize
        ensures { Puts (fitting (form_of target) (length out.old) c) (numbers out.old) (numbers out.new) result };

    ghost laws: { Numbers numbers };
}

impl Element for u8 {
    ghost target = { Bytes };

    ghost numbers = { λ bytes. bytes };

    fn point(text: &[u8]) -> Option<Point> {
        utf8::point(text)
    }

    fn places(c: u32) -> usize {
        crate::bytes_of(c)
    }

    fn put(out: &mut [u8], c: u32) -> usize {
        crate::put_bytes(out, c)
    }

    ghost laws = { themselves };
}

impl Element for u16 {
    ghost target = { Units };

    ghost numbers = { λ units. units };

    fn point(text: &[u16]) -> Option<Point> {
        utf16::point(text)
    }

    fn places(c: u32) -> usize {
        crate::units_of(c)
    }

    fn put(out: &mut [u16], c: u32) -> usize {
        crate::put_units(out, c)
    }

    ghost laws = { themselves };
}

impl Element for u32 {
    ghost target = { Points };

    ghost numbers = { λ points. points };

    fn point(text: &[u32]) -> Option<Point> {
        code_points::point(text)
    }

    fn places(_c: u32) -> usize {
        1
    }

    fn put(out: &mut [u32], c: u32) -> usize {
        crate::put_point(out, c)
    }

    ghost laws = { themselves };
}
