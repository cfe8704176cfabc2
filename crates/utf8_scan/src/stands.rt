// Whether a byte stands well behind the three before it, and how many bytes before a place wait for more.
ghost use Rattle.std.specs.Prelude.{◌≡◌};
ghost use Rattle.utf8_scan.specs.Stands.{is_later, low_of, high_of, second, stands, before, waiting_at};

// Does b only go on with sequences?
fn is_later(b: u8) -> bool
    ensures { result ≡ is_later b }
{
    (0x80..0xC0).contains(&b)
}

// The lowest byte that may stand second behind b.
fn low_of(b: u8) -> u8
    ensures { result ≡ low_of b }
{
    match b {
        0xE0 => 0xA0,
        0xF0 => 0x90,
        _ => 0x80,
    }
}

// The bytes that may stand second behind b are below this one.
fn high_of(b: u8) -> u8
    ensures { result ≡ high_of b }
{
    match b {
        0xED => 0xA0,
        0xF4 => 0x90,
        _ => 0xC0,
    }
}

// Does b1 begin a sequence, and may b0 be its second byte?
fn seconds(b1: u8, b0: u8) -> bool
    ensures { result ≡ second b1 b0 }
{
    (0xC2..0xF5).contains(&b1) && (low_of(b1)..high_of(b1)).contains(&b0)
}

// Does b0 stand well behind b3, b2 and b1?
#[tactic(auto, unfolding(crate::specs::Stands::stands))]
pub(crate) fn stand(b3: u8, b2: u8, b1: u8, b0: u8) -> bool
    ensures { result ≡ stands b3 b2 b1 b0 }
{
    match (b3, b2, b1) {
        (_, _, 0xC0..) => seconds(b1, b0),
        (_, 0xE0.., _) | (0xF0.., _, _) => is_later(b0),
        _ => !is_later(b0),
    }
}

// The byte that stands k before a place, and 0 where there is none. `checked_sub` in place of the test was tried, and is too slow in a
// short text.
pub(crate) fn byte_before(text: &[u8], at: usize, k: usize) -> u8
    ensures { result ≡ before text.now at k }
{
    if at < k {
        return 0;
    }
    text.get(at - k).copied().unwrap_or(0)
}

// How many bytes before a place wait for more, where those before it stand well?
#[tactic(auto, unfolding(crate::specs::Stands::waiting))]
pub fn waiting(text: &[u8], at: usize) -> usize
    ensures { result ≡ waiting_at text.now at }
{
    match (
        byte_before(text, at, 3),
        byte_before(text, at, 2),
        byte_before(text, at, 1),
    ) {
        (_, _, 0xC0..) => 1,
        (_, 0xE0.., _) => 2,
        (0xF0.., _, _) => 3,
        _ => 0,
    }
}
