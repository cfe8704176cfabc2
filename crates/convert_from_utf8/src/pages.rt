// A byte text whose segments are known to be whole in an old page: whether the page has its code points, and where they stand in it.
ghost use Rattle.std.specs.Prelude.{◌≡◌, ◌==◌, [], ◌≤◌, ◌<◌, length};
ghost use Rattle.std.specs.List.{position_from};
ghost use Rattle.theory.specs.Reader.{cut};
ghost use Rattle.terms.specs.Form.{converted};
ghost use Rattle.terms.specs.Strict.{damages};
ghost use Rattle.terms.specs.Writing.{Writes, roomed};
ghost use Rattle.utf8.specs.Bytes.{bytes};
ghost use Rattle.utf8.specs.Scalar.{utf8};
ghost use Rattle.page.specs.Tables.{table_of};
ghost use Rattle.page.specs.Paged.{paged, IsPage, Keeps};
ghost use Rattle.page.specs.Lacking.{lacking, held_up_to, held_by};
ghost use Rattle.convert_point.specs.Puts.{Puts};
ghost use Rattle.ascii.specs.Ascii.{Ascii};
ghost use Rattle.convert_from_utf8.specs.Inside.Held.{place_in, Fits, Held, Places};

use crate::spelling::Reach;
use page::Page;
use terms::Refusal;

// The first place at which a number stands, if there is one.
fn search(numbers: &[u16], c: u32) -> Option<usize>
    ensures { result ≡ position_from (λ n. n == c) 0 numbers.now }
{
    numbers.iter().position(|n| *n as u32 == c)
}

// So many bytes at the start are below 0x80, by whole blocks; so few that what was tested is still near when it is copied.
fn near_run(text: &[u8]) -> usize
    ensures { (result ≤ length text.now) × Ascii text.now result }
{
    let near = text.len().min(4096);
    ascii::run(&text[..near])
}

// The numbers of a page: no two are alike, and the bytes below 0x80 are their own.
#[derive(Drop)]
pub(crate) struct Table {
    numbers: [u16; 256],
    ghost is_page: { IsPage numbers },
    ghost keeps: { Keeps numbers },
}

impl Table {
    // That of one of the pages.
    fn of(page: Page) -> Table
        ensures { result.numbers ≡ table_of page }
    {
        Table {
            numbers: page::numbers(page),
        }
    }

    // The place of a number in a page, where it stands nowhere twice: mostly that of its low byte, 0xA0 behind for Cyrillic, or a high one.
    fn place_of(&self, c: u32) -> Option<usize>
        ensures { result ≡ place_in c self.now.numbers }
    {
        let low = (c % 256) as usize;
        if self.numbers[low] as u32 == c {
            return Some(low);
        }
        let far = (low + 0xA0) % 256;
        if self.numbers[far] as u32 == c {
            return Some(far);
        }
        if let Some(n) = search(&self.numbers[0xA0..], c) {
            return Some(0xA0 + n);
        }
        search(&self.numbers, c)
    }

    // Code points that the page has, one after the other, until 64 bytes are passed: how many bytes they take. The walks keep an index:
    // they answer it, or write beside it at another pace.
    fn held_some(&self, text: &[u8]) -> usize
        requires text_nonzero { (0 < length text.now) × (damages bytes text.now ≡ []) }
        ensures { Held self.now.numbers text.now result }
    {
        let stop = text.len().min(64);
        let mut passed: usize = 0;
        while passed < stop {
            let p = crate::points::first_point(&text[passed..]);
            let Some(_) = self.place_of(p.number) else {
                return passed;
            };
            passed += p.size;
        }
        passed
    }

    // The same, or a long run of bytes below 0x80: a page has them all.
    fn held_stride(&self, text: &[u8]) -> usize
        requires text_nonzero { (0 < length text.now) × (damages bytes text.now ≡ []) }
        ensures { Held self.now.numbers text.now result }
    {
        let n = near_run(text);
        if 0 < n {
            return n;
        }
        self.held_some(text)
    }

    // How many bytes come before the first code point that the page lacks; all of them where it lacks none.
    fn held(&self, text: &[u8]) -> usize
        requires text_value { damages bytes text.now ≡ [] }
        ensures { result ≡ held_up_to self.now.numbers text.now }
    {
        let mut at: usize = 0;
        while at < text.len() {
            let n = self.held_stride(&text[at..]);
            if n == 0 {
                return at;
            }
            at += n;
        }
        at
    }

    // The places of code points, one after the other, until 64 bytes are passed.
    fn put_some(&self, text: &[u8], out: &mut [u8]) -> Reach
        requires text_nonzero { (0 < length text.now) × Fits self.now.numbers text.now }
        requires text_in_bounds { length (converted utf8 (paged self.now.numbers) text.now) ≤ length out.old }
        ensures { Places self.now.numbers text.now out.old out.new result.passed result.put }
    {
        let stop = text.len().min(64);
        let mut at: usize = 0;
        let mut put: usize = 0;
        while at < stop {
            let p = crate::points::first_point(&text[at..]);
            let place = self.place_of(p.number).unwrap();
            out[put] = place as u8;
            put += 1;
            at += p.size;
        }
        Reach { passed: at, put }
    }

    // The same, or a long run of bytes below 0x80, which are copied.
    fn put_stride(&self, text: &[u8], out: &mut [u8]) -> Reach
        requires text_nonzero { (0 < length text.now) × Fits self.now.numbers text.now }
        requires text_in_bounds { length (converted utf8 (paged self.now.numbers) text.now) ≤ length out.old }
        ensures { Places self.now.numbers text.now out.old out.new result.passed result.put }
    {
        let n = near_run(text);
        if 0 < n {
            copy::copy(&text[..n], out);
            return Reach { passed: n, put: n };
        }
        self.put_some(text, out)
    }

    // The text in the page, at the start of an output that has room for it.
    fn put(&self, text: &[u8], out: &mut [u8]) -> usize
        requires fits { Fits self.now.numbers text.now }
        requires text_in_bounds { length (converted utf8 (paged self.now.numbers) text.now) ≤ length out.old }
        ensures { Puts (converted utf8 (paged self.now.numbers) text.now) out.old out.new result }
    {
        let mut at: usize = 0;
        let mut done: usize = 0;
        while at < text.len() {
            let s = self.put_stride(&text[at..], &mut out[done..]);
            at += s.passed;
            done += s.put;
        }
        done
    }

    // The text in the page, which has each of its code points; refused where the output has no room for them. `write` of units and of
    // code points go the same way: one function over closures for the need and the writing would be no shorter than each of them.
    fn write_held(&self, text: &[u8], out: &mut [u8]) -> Result<usize, Refusal>
        requires fits { Fits self.now.numbers text.now }
        ensures { Writes
            (roomed (length out.old) (converted utf8 (paged self.now.numbers) text.now))
            (converted utf8 (paged self.now.numbers) text.now)
            out.old
            out.new
            result }
    {
        if text.len() <= out.len() {
            return Ok(self.put(text, out));
        }
        let places = crate::points::need(text);
        if out.len() < places {
            return Err(Refusal::NoRoom { needed: places });
        }
        Ok(self.put(text, out))
    }
}

// The text in a page; the first code point that the page lacks is refused, and then an output that has no room.
pub(crate) fn write(text: &[u8], page: Page, out: &mut [u8]) -> Result<usize, Refusal>
    requires { damages bytes text.now ≡ [] }
    ensures { Writes
        (held_by (lacking (table_of page) 0 (cut bytes text.now))
        (roomed (length out.old) (converted utf8 (paged (table_of page)) text.now)))
        (converted utf8 (paged (table_of page)) text.now)
        out.old
        out.new
        result }
{
    let table = Table::of(page);
    let at = table.held(text);
    if at < text.len() {
        return Err(Refusal::NotInPage { offset: at });
    }
    table.write_held(text, out)
}
