// The segment and the code point that stand first in a text, and the strict checks.
ghost use Rattle.terms.specs.Told.{first_says};
ghost use Rattle.terms.specs.Form.{point_says};
ghost use Rattle.terms.specs.Strict.{check_says};
ghost use Rattle.utf8.specs.Bytes.{bytes};
ghost use Rattle.utf8.specs.Classes.{by_classes};
ghost use Rattle.utf8.specs.Scalar.{utf8, utf8_by};
ghost use Rattle.utf16.specs.Units.{units};
ghost use Rattle.utf16.specs.Scalar.{utf16};
ghost use Rattle.code_points.specs.Points.{points, code_points, points_say};
ghost use Rattle.bridge_numbers.specs.Telling.{roomy, Tells};

// moxandril::bytes::check: 0, or the refusal.
#[unsafe(no_mangle)]
pub extern "C" fn bridge_bytes_check(text: &[u8], says: &mut [usize]) -> usize
    ensures { Tells
        (roomy says.old)
        (check_says bytes text.now)
        says.old
        says.new
        result }
{
    bridge_numbers::telling::tell(
        bridge_numbers::answers::say_checked(moxandril::bytes::check(text)),
        says,
    )
}

// moxandril::bytes::segment: no number of the empty text; else 0 whole or 1 damage, its size, 1 where it is sure, and its cause.
#[unsafe(no_mangle)]
pub extern "C" fn bridge_bytes_segment(text: &[u8], says: &mut [usize]) -> usize
    ensures { Tells
        (roomy says.old)
        (first_says bytes text.now)
        says.old
        says.new
        result }
{
    bridge_numbers::telling::tell(
        bridge_numbers::answers::say_first(moxandril::bytes::segment(text)),
        says,
    )
}

// moxandril::bytes::point: the number of the code point, and its size.
#[unsafe(no_mangle)]
pub extern "C" fn bridge_bytes_point(text: &[u8], says: &mut [usize]) -> usize
    ensures { Tells
        (roomy says.old)
        (point_says utf8 text.now)
        says.old
        says.new
        result }
{
    bridge_numbers::telling::tell(
        bridge_numbers::answers::say_point(moxandril::bytes::point(text)),
        says,
    )
}

// moxandril::bytes::segment_by, with the table that is lent: as of `segment`.
#[unsafe(no_mangle)]
pub extern "C" fn bridge_bytes_segment_by(
    text: &[u8],
    classes: &[u8; 256],
    says: &mut [usize],
) -> usize
    ensures { Tells
        (roomy says.old)
        (first_says (by_classes classes.now) text.now)
        says.old
        says.new
        result }
{
    bridge_numbers::telling::tell(
        bridge_numbers::answers::say_first(moxandril::bytes::segment_by(text, classes)),
        says,
    )
}

// moxandril::bytes::point_by, with the table that is lent: as of `point`.
#[unsafe(no_mangle)]
pub extern "C" fn bridge_bytes_point_by(
    text: &[u8],
    classes: &[u8; 256],
    says: &mut [usize],
) -> usize
    ensures { Tells
        (roomy says.old)
        (point_says (utf8_by classes.now) text.now)
        says.old
        says.new
        result }
{
    bridge_numbers::telling::tell(
        bridge_numbers::answers::say_point(moxandril::bytes::point_by(text, classes)),
        says,
    )
}

// moxandril::units::check: 0, or the refusal.
#[unsafe(no_mangle)]
pub extern "C" fn bridge_units_check(text: &[u16], says: &mut [usize]) -> usize
    ensures { Tells
        (roomy says.old)
        (check_says units text.now)
        says.old
        says.new
        result }
{
    bridge_numbers::telling::tell(
        bridge_numbers::answers::say_checked(moxandril::units::check(text)),
        says,
    )
}

// moxandril::units::segment: no number of the empty text; else 0 whole or 1 damage, its size, 1 where it is sure, and its cause.
#[unsafe(no_mangle)]
pub extern "C" fn bridge_units_segment(text: &[u16], says: &mut [usize]) -> usize
    ensures { Tells
        (roomy says.old)
        (first_says units text.now)
        says.old
        says.new
        result }
{
    bridge_numbers::telling::tell(
        bridge_numbers::answers::say_first(moxandril::units::segment(text)),
        says,
    )
}

// moxandril::units::point: the number of the code point, and its size.
#[unsafe(no_mangle)]
pub extern "C" fn bridge_units_point(text: &[u16], says: &mut [usize]) -> usize
    ensures { Tells
        (roomy says.old)
        (point_says utf16 text.now)
        says.old
        says.new
        result }
{
    bridge_numbers::telling::tell(
        bridge_numbers::answers::say_point(moxandril::units::point(text)),
        says,
    )
}

// moxandril::points::check: 0, or the refusal.
#[unsafe(no_mangle)]
pub extern "C" fn bridge_points_check(text: &[u32], says: &mut [usize]) -> usize
    ensures { Tells
        (roomy says.old)
        (points_say text.now)
        says.old
        says.new
        result }
{
    bridge_numbers::telling::tell(
        bridge_numbers::answers::say_checked(moxandril::points::check(text)),
        says,
    )
}

// moxandril::points::segment: no number of the empty text; else 0 whole or 1 damage, its size, 1 where it is sure, and its cause.
#[unsafe(no_mangle)]
pub extern "C" fn bridge_points_segment(text: &[u32], says: &mut [usize]) -> usize
    ensures { Tells
        (roomy says.old)
        (first_says points text.now)
        says.old
        says.new
        result }
{
    bridge_numbers::telling::tell(
        bridge_numbers::answers::say_first(moxandril::points::segment(text)),
        says,
    )
}

// moxandril::points::point: the number of the code point, and its size.
#[unsafe(no_mangle)]
pub extern "C" fn bridge_points_point(text: &[u32], says: &mut [usize]) -> usize
    ensures { Tells
        (roomy says.old)
        (point_says code_points text.now)
        says.old
        says.new
        result }
{
    bridge_numbers::telling::tell(
        bridge_numbers::answers::say_point(moxandril::points::point(text)),
        says,
    )
}
