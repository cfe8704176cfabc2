// The most places that a call can need.
ghost use Rattle.std.specs.Prelude.{◌≡◌};
ghost use Rattle.utf8.specs.Scalar.{utf8};
ghost use Rattle.utf16.specs.Scalar.{utf16};
ghost use Rattle.convert_point.specs.Room.{most_of};
ghost use Rattle.decoder.specs.Room.{most_fed};
ghost use Rattle.decoder_shared.specs.Room as shared;
ghost use Rattle.bridge_texts.specs.Needing.{target_of};

use moxandril::Target;

// 0 bytes, 1 units, else code points.
fn target_of(kind: usize) -> Target
    ensures { result ≡ target_of kind }
{
    match kind {
        0 => Target::Bytes,
        1 => Target::Units,
        _ => Target::Points,
    }
}

// moxandril::most, from one form into another.
#[unsafe(no_mangle)]
pub extern "C" fn bridge_most(from: usize, to: usize, n: usize) -> usize
    ensures { result ≡ most_of (target_of from) (target_of to) n }
{
    let one = target_of(from);
    let other = target_of(to);
    moxandril::most(one, other, n)
}

// moxandril::pieces::most of so many bytes.
#[unsafe(no_mangle)]
pub extern "C" fn bridge_pieces_most(n: usize) -> usize
    ensures { result ≡ most_fed n }
{
    moxandril::pieces::most(n)
}

// moxandril::unit_pieces::most of so many units.
#[unsafe(no_mangle)]
pub extern "C" fn bridge_unit_pieces_most(n: usize) -> usize
    ensures { result ≡ shared.most_fed utf8 n }
{
    moxandril::unit_pieces::most(n)
}

// moxandril::pieces_to_units::most of so many bytes.
#[unsafe(no_mangle)]
pub extern "C" fn bridge_pieces_to_units_most(n: usize) -> usize
    ensures { result ≡ shared.most_fed utf16 n }
{
    moxandril::pieces_to_units::most(n)
}
