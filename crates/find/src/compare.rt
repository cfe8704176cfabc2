// A needle compared with an entry from a place on.
ghost use Rattle.std.specs.Prelude.{◌+◌, ◌≤◌, length};
ghost use Rattle.find.specs.Inside.Compared.{Agrees};

// From one index of the needle up to another: the first that differs, or the other.
pub(crate) fn agree(entry: &[u8], needle: &[u8], place: usize, from: usize, to: usize) -> usize
    requires { (to ≤ length needle.now) × (place + to ≤ length entry.now) }
    ensures { Agrees entry.now needle.now place from to result }
{
    for i in from..to {
        if entry[place + i] != needle[i] {
            return i;
        }
    }
    from.max(to)
}
