// Sixteen units below 0x80 as bytes, which are themselves, at the start of an output.
ghost use Rattle.std.specs.Prelude.{length};
ghost use Rattle.convert_utf16_blocks.specs.Block.{sixteen, PutsSome};

use crate::{Part, are_low, put_low};

// The bytes of the first 16 units of a text, if they are below 0x80 and the output has a place for each.
pub fn put_sixteen(text: &[u16], out: &mut [u8]) -> Option<Part>
    ensures { PutsSome (sixteen (length out.old) text.now) out.old out.new result }
{
    if out.len() < 16 {
        return None;
    }
    let units = text.first_chunk::<16>()?;
    if !are_low(units) {
        return None;
    }
    put_low(units, out);
    Some(Part {
        read: 16,
        places: 16,
    })
}
