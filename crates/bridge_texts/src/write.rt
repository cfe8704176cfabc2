// Strict conversion and repair of a whole text into a lent output.
ghost use Rattle.std.specs.Prelude.{length};
ghost use Rattle.terms.specs.Form.{repaired, converted};
ghost use Rattle.terms.specs.Strict.{damaged};
ghost use Rattle.terms.specs.Writing.{repair_says, convert_says};
ghost use Rattle.utf8.specs.Scalar.{utf8};
ghost use Rattle.utf16.specs.Scalar.{utf16};
ghost use Rattle.code_points.specs.Points.{code_points, no_scalar};
ghost use Rattle.bridge_numbers.specs.Telling.{roomy};
ghost use Rattle.bridge_numbers.specs.Writing.{Writes};

// moxandril::bytes::to_units: 0 and how many units were written, or the refusal.
#[unsafe(no_mangle)]
pub extern "C" fn bridge_bytes_to_units(text: &[u8], out: &mut [u16], says: &mut [usize]) -> usize
    ensures { Writes
        (roomy says.old)
        (convert_says damaged utf8 utf16 (length out.old) text.now)
        (converted utf8 utf16 text.now)
        out.old
        out.new
        says.old
        says.new
        result }
{
    if says.len() < bridge_numbers::telling::ROOM {
        return bridge_numbers::telling::NOT_CALLED;
    }
    bridge_numbers::telling::tell(
        bridge_numbers::answers::say_written(moxandril::bytes::to_units(text, out)),
        says,
    )
}

// moxandril::bytes::to_points: 0 and how many code points were written, or the refusal.
#[unsafe(no_mangle)]
pub extern "C" fn bridge_bytes_to_points(text: &[u8], out: &mut [u32], says: &mut [usize]) -> usize
    ensures { Writes
        (roomy says.old)
        (convert_says damaged utf8 code_points (length out.old) text.now)
        (converted utf8 code_points text.now)
        out.old
        out.new
        says.old
        says.new
        result }
{
    if says.len() < bridge_numbers::telling::ROOM {
        return bridge_numbers::telling::NOT_CALLED;
    }
    bridge_numbers::telling::tell(
        bridge_numbers::answers::say_written(moxandril::bytes::to_points(text, out)),
        says,
    )
}

// moxandril::bytes::repair: 0 and how many bytes were written, or the refusal.
#[unsafe(no_mangle)]
pub extern "C" fn bridge_bytes_repair(text: &[u8], out: &mut [u8], says: &mut [usize]) -> usize
    ensures { Writes
        (roomy says.old)
        (repair_says (length out.old) text.now (repaired utf8 text.now))
        (repaired utf8 text.now)
        out.old
        out.new
        says.old
        says.new
        result }
{
    if says.len() < bridge_numbers::telling::ROOM {
        return bridge_numbers::telling::NOT_CALLED;
    }
    bridge_numbers::telling::tell(
        bridge_numbers::answers::say_written(moxandril::bytes::repair(text, out)),
        says,
    )
}

// moxandril::bytes::repair_to_units: 0 and how many units were written, or the refusal.
#[unsafe(no_mangle)]
pub extern "C" fn bridge_bytes_repair_to_units(
    text: &[u8],
    out: &mut [u16],
    says: &mut [usize],
) -> usize
    ensures { Writes
        (roomy says.old)
        (repair_says (length out.old) text.now (converted utf8 utf16 text.now))
        (converted utf8 utf16 text.now)
        out.old
        out.new
        says.old
        says.new
        result }
{
    if says.len() < bridge_numbers::telling::ROOM {
        return bridge_numbers::telling::NOT_CALLED;
    }
    bridge_numbers::telling::tell(
        bridge_numbers::answers::say_written(moxandril::bytes::repair_to_units(text, out)),
        says,
    )
}

// moxandril::units::to_bytes: 0 and how many bytes were written, or the refusal.
#[unsafe(no_mangle)]
pub extern "C" fn bridge_units_to_bytes(text: &[u16], out: &mut [u8], says: &mut [usize]) -> usize
    ensures { Writes
        (roomy says.old)
        (convert_says damaged utf16 utf8 (length out.old) text.now)
        (converted utf16 utf8 text.now)
        out.old
        out.new
        says.old
        says.new
        result }
{
    if says.len() < bridge_numbers::telling::ROOM {
        return bridge_numbers::telling::NOT_CALLED;
    }
    bridge_numbers::telling::tell(
        bridge_numbers::answers::say_written(moxandril::units::to_bytes(text, out)),
        says,
    )
}

// moxandril::units::to_points: 0 and how many code points were written, or the refusal.
#[unsafe(no_mangle)]
pub extern "C" fn bridge_units_to_points(text: &[u16], out: &mut [u32], says: &mut [usize]) -> usize
    ensures { Writes
        (roomy says.old)
        (convert_says damaged utf16 code_points (length out.old) text.now)
        (converted utf16 code_points text.now)
        out.old
        out.new
        says.old
        says.new
        result }
{
    if says.len() < bridge_numbers::telling::ROOM {
        return bridge_numbers::telling::NOT_CALLED;
    }
    bridge_numbers::telling::tell(
        bridge_numbers::answers::say_written(moxandril::units::to_points(text, out)),
        says,
    )
}

// moxandril::units::repair: 0 and how many units were written, or the refusal.
#[unsafe(no_mangle)]
pub extern "C" fn bridge_units_repair(text: &[u16], out: &mut [u16], says: &mut [usize]) -> usize
    ensures { Writes
        (roomy says.old)
        (repair_says (length out.old) text.now (repaired utf16 text.now))
        (repaired utf16 text.now)
        out.old
        out.new
        says.old
        says.new
        result }
{
    if says.len() < bridge_numbers::telling::ROOM {
        return bridge_numbers::telling::NOT_CALLED;
    }
    bridge_numbers::telling::tell(
        bridge_numbers::answers::say_written(moxandril::units::repair(text, out)),
        says,
    )
}

// moxandril::units::repair_to_bytes: 0 and how many bytes were written, or the refusal.
#[unsafe(no_mangle)]
pub extern "C" fn bridge_units_repair_to_bytes(
    text: &[u16],
    out: &mut [u8],
    says: &mut [usize],
) -> usize
    ensures { Writes
        (roomy says.old)
        (repair_says (length out.old) text.now (converted utf16 utf8 text.now))
        (converted utf16 utf8 text.now)
        out.old
        out.new
        says.old
        says.new
        result }
{
    if says.len() < bridge_numbers::telling::ROOM {
        return bridge_numbers::telling::NOT_CALLED;
    }
    bridge_numbers::telling::tell(
        bridge_numbers::answers::say_written(moxandril::units::repair_to_bytes(text, out)),
        says,
    )
}

// moxandril::points::to_bytes: 0 and how many bytes were written, or the refusal.
#[unsafe(no_mangle)]
pub extern "C" fn bridge_points_to_bytes(text: &[u32], out: &mut [u8], says: &mut [usize]) -> usize
    ensures { Writes
        (roomy says.old)
        (convert_says no_scalar code_points utf8 (length out.old) text.now)
        (converted code_points utf8 text.now)
        out.old
        out.new
        says.old
        says.new
        result }
{
    if says.len() < bridge_numbers::telling::ROOM {
        return bridge_numbers::telling::NOT_CALLED;
    }
    bridge_numbers::telling::tell(
        bridge_numbers::answers::say_written(moxandril::points::to_bytes(text, out)),
        says,
    )
}

// moxandril::points::to_units: 0 and how many units were written, or the refusal.
#[unsafe(no_mangle)]
pub extern "C" fn bridge_points_to_units(text: &[u32], out: &mut [u16], says: &mut [usize]) -> usize
    ensures { Writes
        (roomy says.old)
        (convert_says no_scalar code_points utf16 (length out.old) text.now)
        (converted code_points utf16 text.now)
        out.old
        out.new
        says.old
        says.new
        result }
{
    if says.len() < bridge_numbers::telling::ROOM {
        return bridge_numbers::telling::NOT_CALLED;
    }
    bridge_numbers::telling::tell(
        bridge_numbers::answers::say_written(moxandril::points::to_units(text, out)),
        says,
    )
}
