// A text copied to the start of an output, in blocks of sixteen bytes: one copy of any length would be a call, and the archives for other
// languages would need its name from outside.
#![tactic(auto)]

ghost use Rattle.std.specs.Prelude.{◌≡◌, ◌++◌, ◌≤◌, length, take, drop};

// The first sixteen bytes: read into an array they are one load.
fn block_of(text: &[u8]) -> [u8; 16]
    requires { 16 ≤ length text.now }
    ensures { result ≡ take 16 text.now }
{
    let mut block = [0u8; 16];
    for k in 0..16 {
        block[k] = text[k];
    }
    block
}

// A block of sixteen bytes.
fn copy_block(text: &[u8], out: &mut [u8])
    requires { (16 ≤ length text.now) × (16 ≤ length out.old) }
    ensures { out.new ≡ take 16 text.now ++ drop 16 out.old }
{
    let block = block_of(text);
    for k in 0..16 {
        out[k] = block[k];
    }
}

// The first n bytes one by one, for fewer than a block has.
fn copy_few(text: &[u8], n: usize, out: &mut [u8])
    requires { (n ≤ length text.now) × (n ≤ length out.old) }
    ensures { out.new ≡ take n text.now ++ drop n out.old }
{
    let mut at: usize = 0;
    while at < n {
        out[at] = text[at];
        at += 1;
    }
}

// The first n bytes block by block: the last one ends where the bytes end, and writes some of them again.
fn copy_many(text: &[u8], n: usize, out: &mut [u8])
    requires { (16 ≤ n) × (n ≤ length text.now) × (n ≤ length out.old) }
    ensures { out.new ≡ take n text.now ++ drop n out.old }
{
    let mut at: usize = 0;
    while 16 <= n - at {
        copy_block(&text[at..], &mut out[at..]);
        at += 16;
    }
    let last = n - 16;
    copy_block(&text[last..], &mut out[last..]);
}

// As much of a text as the output has places for, at its start.
pub fn copy(text: &[u8], out: &mut [u8])
    ensures { out.new
        ≡ take (length out.old) text.now ++ drop (length text.now) out.old }
{
    let n = text.len().min(out.len());
    if n < 16 {
        copy_few(text, n, out);
        return;
    }
    copy_many(text, n, out);
}
