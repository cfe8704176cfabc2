// Phrases: the first match of a needle in an entry, by both searches, and the entry from there on.
ghost use Rattle.std.specs.Prelude.{◌≡◌, length};
ghost use Rattle.find.specs.Match.{find_says, rest_says};
ghost use Rattle.bridge_numbers.specs.Telling.{roomy, Tells};

// moxandril::phrases::find: 0 and the offset of the match, 0 alone where there is none, or the refusal.
#[unsafe(no_mangle)]
pub extern "C" fn bridge_phrases_find(entry: &[u8], needle: &[u8], says: &mut [usize]) -> usize
    ensures { Tells
        (roomy says.old)
        (find_says entry.now needle.now)
        says.old
        says.new
        result }
{
    bridge_numbers::telling::tell(
        bridge_numbers::answers::say_match(moxandril::phrases::find(entry, needle)),
        says,
    )
}

// moxandril::phrases::find_plain: 0 and the offset of the match, 0 alone where there is none, or the refusal.
#[unsafe(no_mangle)]
pub extern "C" fn bridge_phrases_find_plain(
    entry: &[u8],
    needle: &[u8],
    says: &mut [usize],
) -> usize
    ensures { Tells
        (roomy says.old)
        (find_says entry.now needle.now)
        says.old
        says.new
        result }
{
    bridge_numbers::telling::tell(
        bridge_numbers::answers::say_match(moxandril::phrases::find_plain(entry, needle)),
        says,
    )
}

// moxandril::phrases::find_rest: how many bytes the part has.
#[unsafe(no_mangle)]
pub extern "C" fn bridge_phrases_find_rest(entry: &[u8], needle: &[u8]) -> usize
    ensures { result ≡ length (rest_says entry.now needle.now) }
{
    moxandril::phrases::find_rest(entry, needle).len()
}
