// Lookup in an index that was built in any pieces answers as plain lookup.
#![tactic(auto)]

ghost use Rattle.std.specs.Prelude.{◌≡◌, true};
ghost use Rattle.index_lookup.specs.Agreeing.{AsPlain};
ghost use Rattle.demand_index.specs.Builds.{built};

use place::{Bytes, Lines, Points, Units};

pub mod audits;
mod building;

// Over a row that stands for a text's index, each of the four lookups is the plain one.
fn agree(text: &[u8], row: &[u32], byte: Bytes, unit: Units, point: Points, line: Lines) -> bool
    requires { AsPlain row.now text.now }
    ensures { result ≡ true }
{
    (index_lookup::at_byte(text, row, byte) == place_lookup::at_byte(text, byte))
        & (index_lookup::at_unit(text, row, unit) == place_lookup::at_unit(text, unit))
        & (index_lookup::at_point(text, row, point) == place_lookup::at_point(text, point))
        & (index_lookup::at_line(text, row, line) == place_lookup::at_line(text, line))
}

// A text, cut positions, a row with anything in it, and an offset of each kind: after a build in those pieces the indexed
// lookup answers as the plain one.
pub fn looked_up(
    text: &[u8],
    cuts: &[usize],
    row: &mut [u32],
    byte: Bytes,
    unit: Units,
    point: Points,
    line: Lines,
) -> bool
    ensures { (result ≡ true) × (row.new ≡ (built text.now cuts.now row.old).row) }
{
    if !crate::building::build_in_pieces(text, cuts, row) {
        return crate::building::may_refuse(text.len(), row.len());
    }
    agree(text, row, byte, unit, point, line)
}
