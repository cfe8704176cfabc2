// Old pages, there and back: what two conversions granted is the text, and a refusal was due.
#![tactic(auto)]

ghost use Rattle.std.specs.Prelude.{◌≡◌, ◌==◌, [], ◌∷◌, length};
ghost use Rattle.std.specs.List.{list_any};
ghost use Rattle.terms.specs.Strict.{check_says};
ghost use Rattle.terms.specs.Told.{told_refusal, told_checked};
ghost use Rattle.utf8.specs.Bytes.{bytes};
ghost use Rattle.page.specs.Tables.{table_of};
ghost use Rattle.page.specs.Paged as paged;
ghost use Rattle.page.specs.Lacking.{held_up_to, to_page_says};
ghost use Rattle.convert_point.specs.Room.{most_of};
ghost use Rattle.convert_point.specs.declared.Target.TheVariants as the-target;
ghost use Rattle.demand_convert.specs.Due.{due_there};
ghost use Rattle.demand_page.specs.Due.{due_into};
ghost use Rattle.demand_page.specs.Rounds.{as_bytes, as_bytes_says, in_page, Back, Round};

use convert_point::Target;
use page::Page;
use terms::Refusal;

// Does a number stand in a table? A function of its own, as the proof of the search is found over a slice.
fn stands(numbers: &[u16], c: u32) -> bool
    ensures { result ≡ list_any (λ n. n == c) numbers.now }
{
    numbers.iter().any(|n| u32::from(*n) == c)
}

// Does a page have a number? Each of its bytes is asked.
fn has(page: Page, c: u32) -> bool
    ensures { result ≡ paged.has (table_of page) c }
{
    stands(&page::numbers(page), c)
}

// How many bytes come before the first code point that a page lacks, code point by code point.
fn held(text: &[u8], page: Page) -> usize
    ensures { result ≡ held_up_to (table_of page) text.now }
{
    let mut at: usize = 0;
    while let Some(p) = utf8::point(&text[at..]) {
        if !has(page, p.number) {
            return at;
        }
        at += p.size;
    }
    at
}

// Was this refusal due on the way into a page, for a text of so many bytes, of which the strict check says so, and of which the page has so
// many before the first that it lacks?
fn due_into(why: Refusal, check: Result<(), Refusal>, held: usize, long: usize, room: usize) -> bool
    ensures { result ≡ due_into (told_refusal why) (told_checked check) held long room }
{
    match why {
        Refusal::NotInPage { offset } => check.is_ok() & (held < long) & (offset == held),
        Refusal::NoRoom { needed } => {
            check.is_ok() & (held == long) & (room < needed) & (needed <= long)
        }
        _ => demand_convert::due_there(why, check, long, room, long),
    }
}

// The same for a text and a page.
fn due_in_page(why: Refusal, text: &[u8], page: Page, room: usize) -> bool
    ensures { result ≡ due_into (told_refusal why) (check_says bytes text.now)
        (held_up_to (table_of page) text.now) (length text.now) room }
{
    due_into(
        why,
        utf8_check::check(text),
        held(text, page),
        text.len(),
        room,
    )
}

// Was this refusal due on the way from a page, of which no byte is refused? A byte of a page takes at most three, as a unit does.
fn due_as_bytes(why: Refusal, long: usize, room: usize) -> bool
    ensures { result ≡ due_there (told_refusal why) (0 ∷ []) long room (most_of the-target.Units the-target.Bytes long) }
{
    let most = convert_point::most(Target::Units, Target::Bytes, long);
    demand_convert::due_there(why, Ok(()), long, room, most)
}

// Bytes in a page: are they the text?
fn bytes_in_page(text: &[u8], page: Page, between: &[u8], back: &mut [u8]) -> bool
    ensures { Back (to_page_says (table_of page) (length back.old)) (in_page (table_of page))
        text.now between.now back.old back.new result }
{
    let room = back.len();
    match convert_from_utf8::to_page(between, page, back) {
        Ok(n) => text == &back[..n],
        Err(why) => demand_convert::due_back(why, between.len(), room, text.len()),
    }
}

// A text of a page as bytes, and back.
pub fn page_bytes(text: &[u8], page: Page, between: &mut [u8], back: &mut [u8]) -> bool
    ensures { Round (as_bytes_says (table_of page) (length between.old)) (as_bytes (table_of page))
        (to_page_says (table_of page) (length back.old))
        text.now between.old back.old between.new back.new result }
{
    let room = between.len();
    match convert_from_page::to_bytes(text, page, between) {
        Ok(n) => bytes_in_page(text, page, &between[..n], back),
        Err(why) => due_as_bytes(why, text.len(), room),
    }
}

// A text of a page as bytes: are they the text?
fn page_as_bytes(text: &[u8], page: Page, between: &[u8], back: &mut [u8]) -> bool
    ensures { Back (as_bytes_says (table_of page) (length back.old)) (as_bytes (table_of page))
        text.now between.now back.old back.new result }
{
    let room = back.len();
    match convert_from_page::to_bytes(between, page, back) {
        Ok(n) => text == &back[..n],
        Err(why) => demand_convert::due_back(why, between.len(), room, text.len()),
    }
}

// Bytes in a page, and back.
pub fn bytes_page(text: &[u8], page: Page, between: &mut [u8], back: &mut [u8]) -> bool
    ensures { Round (to_page_says (table_of page) (length between.old)) (in_page (table_of page))
        (as_bytes_says (table_of page) (length back.old))
        text.now between.old back.old between.new back.new result }
{
    let room = between.len();
    match convert_from_utf8::to_page(text, page, between) {
        Ok(n) => page_as_bytes(text, page, &between[..n], back),
        Err(why) => due_in_page(why, text, page, room),
    }
}
