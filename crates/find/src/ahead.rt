// Looking ahead by blocks: where two bytes of the needle that are seldom met do not both stand, no match begins.
ghost use Rattle.std.specs.Prelude.{◌≡◌, true, ℕ, ◌+◌, ◌≤◌, ◌<◌, length};
ghost use Rattle.find.specs.Inside.Compared.{Apart, Rare, Passed};

// Two indices of the needle whose bytes are looked for ahead; how many looks in a row passed over next to nothing; and for how many
// comparisons looking then waits.
#[derive(Clone, Copy)]
pub(crate) struct Ahead {
    pub(crate) first: usize,
    pub(crate) second: usize,
    pub(crate) poor: usize,
    pub(crate) wait: usize,
}

// 0 where both bytes are those that are sought.
fn differ(x: u8, y: u8, a: u8, b: u8) -> u8
    ensures { x ≡ a → y ≡ b → result ≡ 0 }
{
    (x ^ a) | (y ^ b)
}

// Are the two bytes apart at each of so many places at the start of two texts?
fn apart(first: &[u8], second: &[u8], a: u8, b: u8, size: usize) -> bool
    requires { (size ≤ length first.now) × (size ≤ length second.now) }
    ensures { result ≡ true → Apart first.now second.now a b size }
{
    let mut least: u8 = 255;
    for (x, y) in first[..size].iter().zip(&second[..size]) {
        least = least.min(differ(*x, *y, a, b));
    }
    0 < least
}

// A place, or another number where something differs there.
fn if_same(differs: u8, k: u8, other: u8) -> u8
    ensures { differs ≡ 0 → result ≡ k }
{
    if differs == 0 { k } else { other }
}

// How many of so many places come before one at which the two bytes are not apart? All of them, where there is none. By index, since
// the least place itself is sought, as a byte: `enumerate` counts in words, and the loop would be narrower.
fn before(first: &[u8], second: &[u8], a: u8, b: u8, size: usize) -> usize
    requires { (size ≤ 64) × (size ≤ length first.now) × (size ≤ length second.now) }
    ensures { Apart first.now second.now a b result × (result ≤ size) }
{
    let all = size as u8;
    let mut least = all;
    for k in 0..size {
        let differs = differ(first[k], second[k], a, b);
        least = least.min(if_same(differs, k as u8, all));
    }
    least as usize
}

// The same, where few blocks have such a place: in a wide one that has it no place is passed, and narrower ones find it.
fn block(first: &[u8], second: &[u8], a: u8, b: u8, size: usize) -> usize
    requires { (size ≤ length first.now) × (size ≤ length second.now) }
    ensures { Apart first.now second.now a b result × (result ≤ size) }
{
    if apart(first, second, a, b, size) {
        return size;
    }
    if 64 < size {
        return 0;
    }
    before(first, second, a, b, size)
}

// The entry and the needle are lent beside it: a struct of the two would be taken apart again in each method.
impl Ahead {
    // By blocks of a size: the next place at which both bytes stand, or one with no whole block from there on.
    fn pass(self, entry: &[u8], needle: &[u8], place: usize, size: usize) -> usize
        requires rare { Rare needle.now self.first self.second × (length needle.now ≤ length entry.now) }
        requires needle_in_bounds { (place + length needle.now ≤ length entry.now + 1) × (0 < size) }
        ensures { Passed entry.now needle.now place result }
    {
        let i = self.first;
        let j = self.second;
        let a = needle[i];
        let b = needle[j];
        let end = entry.len() - needle.len() + 1;
        let mut at = place;
        while size <= end - at {
            let n = block(&entry[at + i..], &entry[at + j..], a, b, size);
            at += n;
            if n < size {
                return at;
            }
        }
        at
    }

    // Fewer than sixteen places are left: one block more that ends where they end, over places that were passed.
    fn pass_last(self, entry: &[u8], needle: &[u8], at: usize) -> usize
        requires rare { Rare needle.now self.first self.second × (length needle.now ≤ length entry.now) }
        requires needle_in_bounds { at + length needle.now ≤ length entry.now + 1 }
        ensures { Passed entry.now needle.now at result }
    {
        let i = self.first;
        let j = self.second;
        let end = entry.len() - needle.len() + 1;
        if end < 16 {
            return at;
        }
        if 16 <= end - at {
            return at;
        }
        let from = end - 16;
        if apart(
            &entry[from + i..],
            &entry[from + j..],
            needle[i],
            needle[j],
            16,
        ) {
            return end;
        }
        at
    }

    // The next place at which both bytes stand; where fewer than sixteen are left it may be the same, and where none has them
    // their end.
    pub(crate) fn onward(self, entry: &[u8], needle: &[u8], place: usize) -> usize
        requires { Rare needle.now self.first self.second × (place + length needle.now ≤ length entry.now) }
        ensures { Passed entry.now needle.now place result }
    {
        let wide = self.pass(entry, needle, place, 256);
        let near = self.pass(entry, needle, wide, 64);
        let narrow = self.pass(entry, needle, near, 16);
        self.pass_last(entry, needle, narrow)
    }

    // The next place to compare at: the same where bytes are known to match, or while looking waits.
    pub(crate) fn next(self, entry: &[u8], needle: &[u8], place: usize, seen: usize) -> usize
        requires { Rare needle.now self.first self.second × (place + length needle.now ≤ length entry.now) }
        ensures { Passed entry.now needle.now place result × (0 < seen → result ≡ place) }
    {
        if 0 < seen {
            return place;
        }
        if 0 < self.wait {
            return place;
        }
        self.onward(entry, needle, place)
    }

    // What to look for behind a place that was compared. Where looking passed over few places, the byte that differed is sought in
    // place of one that stands there too often. Where it did so with next to no place passed four times in a row, it waits, the
    // longer the more often, so as to cost little more than walking.
    pub(crate) fn behind_look(self, seen: usize, passed: usize, differs: usize) -> Ahead
        ensures { (n : ℕ) → self.first < n → self.second < n → differs < n → (result.first < n) × (result.second < n) }
    {
        if 0 < self.wait {
            return Ahead {
                wait: self.wait - 1,
                ..self
            };
        }
        if 0 < seen || 256 <= passed {
            return self;
        }
        let (poor, wait) = if 16 <= passed {
            (0, 0)
        } else if self.poor < 3 {
            (self.poor + 1, 0)
        } else if self.poor < 32 {
            (self.poor + 1, 32 * self.poor)
        } else {
            (32, 1_024)
        };
        Ahead {
            first: self.second,
            second: differs,
            poor,
            wait,
        }
    }
}
