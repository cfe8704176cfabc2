// The numbers of a text's bytes, by a table of a page: how many UTF-8 bytes they take, and these at the start of an output.
ghost use Rattle.std.specs.Prelude.{◌≡◌, ◌≤◌, ◌<◌, length, get_or};
ghost use Rattle.terms.specs.Form.{converted};
ghost use Rattle.terms.specs.Limits.{limit};
ghost use Rattle.utf8.specs.Scalar.{sequence, utf8};
ghost use Rattle.page.specs.Tables.{table_of};
ghost use Rattle.page.specs.Paged.{paged, Keeps};
ghost use Rattle.convert_point.specs.Puts.{Puts};
ghost use Rattle.convert_point.specs.Inside.Passes.{PassesTo};
ghost use Rattle.convert_from_page.specs.Inside.Units.{AreUnits};
ghost use Rattle.convert_from_page.specs.Inside.Store.{first_of, Stores};

use page::Page;

// How far a stride went: so many bytes are passed over, and so many places written. convert_from_utf8 has such a pair of its own: a crate
// for the two would be no plainer.
#[derive(Clone, Copy)]
pub(crate) struct Reach {
    pub passed: usize,
    pub put: usize,
}

// The first byte of a number below 0x800.
fn lead(n: u16) -> u8
    requires { n < 0x800 }
    ensures { result ≡ first_of n }
{
    if n < 0x80 {
        n as u8
    } else {
        (0xC0 + n / 0x40) as u8
    }
}

// How many bytes a number below 0x800 takes.
fn long(n: u16) -> usize
    requires { n < 0x800 }
    ensures { result ≡ length (sequence n) }
{
    if n < 0x80 { 1 } else { 2 }
}

// The bytes of a number. Two stores at least, whether or not the second is wanted: what comes next stores over it.
fn put_two(n: u16, out: &mut [u8]) -> usize
    requires { (2 ≤ length out.old) × (length (sequence n) ≤ length out.old) }
    ensures { Stores (sequence n) out.old out.new result }
{
    if 0x800 <= n {
        return convert_point::put_bytes(out, n as u32);
    }
    out[0] = lead(n);
    out[1] = (0x80 + n % 0x40) as u8;
    long(n)
}

// The number of each byte of a page: those below 0x80 are their own, and none takes more than three bytes.
#[derive(Drop)]
pub(crate) struct Table {
    numbers: [u16; 256],
    ghost keeps: { Keeps numbers },
    ghost are_units: { AreUnits numbers },
}

impl Table {
    // That of one of the pages.
    pub(crate) fn of(page: Page) -> Table
        ensures { result.numbers ≡ table_of page }
    {
        Table {
            numbers: page::numbers(page),
        }
    }

    // The number of a byte.
    fn number(&self, b: u8) -> u16
        ensures { result ≡ get_or self.now.numbers b 0 }
    {
        self.numbers[b as usize]
    }

    // How many bytes the numbers of a text take.
    pub(crate) fn need(&self, text: &[u8]) -> usize
        requires { length text.now ≤ limit }
        ensures { result ≡ length (converted (paged self.now.numbers) utf8 text.now) }
    {
        let mut total: usize = 0;
        for &b in text {
            total += convert_point::bytes_of(self.number(b) as u32);
        }
        total
    }

    // The bytes of the numbers of some bytes; those of the last one exactly, so that no place behind them changes.
    fn put_some(&self, text: &[u8], out: &mut [u8]) -> usize
        requires text_nonzero { 0 < length text.now }
        requires text_in_bounds { length (converted (paged self.now.numbers) utf8 text.now) ≤ length out.old }
        ensures { Puts (converted (paged self.now.numbers) utf8 text.now) out.old out.new result }
    {
        let last = text.len() - 1;
        let mut done: usize = 0;
        for &b in &text[..last] {
            done += put_two(self.number(b), &mut out[done..]);
        }
        done + convert_point::put_bytes(&mut out[done..], self.number(text[last]) as u32)
    }

    // A run of bytes below 0x80 as it is, or some bytes by their numbers. What was tested is still in the cache when it is copied.
    fn stride(&self, text: &[u8], out: &mut [u8]) -> Reach
        requires text_nonzero { 0 < length text.now }
        requires text_in_bounds { length (converted (paged self.now.numbers) utf8 text.now) ≤ length out.old }
        ensures { PassesTo (paged self.now.numbers) utf8 text.now out.old out.new result.passed result.put }
    {
        let near = text.len().min(4096);
        let n = ascii::run(&text[..near]);
        if 0 < n {
            copy::copy(&text[..n], out);
            return Reach { passed: n, put: n };
        }
        let m = text.len().min(64);
        let put = self.put_some(&text[..m], out);
        Reach { passed: m, put }
    }

    // The bytes of the numbers of a text, at the start of an output that has room for them. It keeps an index, which goes on by what a stride
    // passed: the rest of the text beside it would be no plainer.
    pub(crate) fn put(&self, text: &[u8], out: &mut [u8]) -> usize
        requires text_in_bounds { length (converted (paged self.now.numbers) utf8 text.now) ≤ length out.old }
        ensures { Puts (converted (paged self.now.numbers) utf8 text.now) out.old out.new result }
    {
        let mut at: usize = 0;
        let mut done: usize = 0;
        while at < text.len() {
            let s = self.stride(&text[at..], &mut out[done..]);
            at += s.passed;
            done += s.put;
        }
        done
    }
}
