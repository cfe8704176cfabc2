// Old single-byte pages, by their numbers 1, 5 and 15; where a number is none of these nothing is called.
ghost use Rattle.std.specs.Prelude.{◌≡◌, ◌&&◌, length};
ghost use Rattle.terms.specs.Form.{converted};
ghost use Rattle.terms.specs.Writing.{repair_says};
ghost use Rattle.utf8.specs.Scalar.{utf8};
ghost use Rattle.page.specs.Tables.{table_of};
ghost use Rattle.page.specs.Paged.{paged};
ghost use Rattle.page.specs.Lacking.{to_page_says};
ghost use Rattle.bridge_numbers.specs.Telling.{roomy};
ghost use Rattle.bridge_numbers.specs.Writing.{Writes};
ghost use Rattle.bridge_texts.specs.Pages.{is_page, page_of};

use moxandril::pages::Page;

fn is_page(number: usize) -> bool
    ensures { result ≡ is_page number }
{
    matches!(number, 1 | 5 | 15)
}

// 1 and 5, else 15.
fn page_of(number: usize) -> Page
    ensures { result ≡ page_of number }
{
    match number {
        1 => Page::Iso8859_1,
        5 => Page::Iso8859_5,
        _ => Page::Iso8859_15,
    }
}

// moxandril::pages::to_bytes: 0 and how many bytes were written, or the refusal.
#[unsafe(no_mangle)]
pub extern "C" fn bridge_pages_to_bytes(
    text: &[u8],
    page: usize,
    out: &mut [u8],
    says: &mut [usize],
) -> usize
    ensures { Writes
        (is_page page && roomy says.old)
        (repair_says (length out.old) text.now (converted (paged (table_of (page_of page))) utf8 text.now))
        (converted (paged (table_of (page_of page))) utf8 text.now)
        out.old
        out.new
        says.old
        says.new
        result }
{
    if !is_page(page) {
        return bridge_numbers::telling::NOT_CALLED;
    }
    if says.len() < bridge_numbers::telling::ROOM {
        return bridge_numbers::telling::NOT_CALLED;
    }
    let written = moxandril::pages::to_bytes(text, page_of(page), out);
    bridge_numbers::telling::tell(bridge_numbers::answers::say_written(written), says)
}

// moxandril::bytes::to_page: 0 and how many bytes were written, or the refusal.
#[unsafe(no_mangle)]
pub extern "C" fn bridge_bytes_to_page(
    text: &[u8],
    page: usize,
    out: &mut [u8],
    says: &mut [usize],
) -> usize
    ensures { Writes
        (is_page page && roomy says.old)
        (to_page_says (table_of (page_of page)) (length out.old) text.now)
        (converted utf8 (paged (table_of (page_of page))) text.now)
        out.old
        out.new
        says.old
        says.new
        result }
{
    if !is_page(page) {
        return bridge_numbers::telling::NOT_CALLED;
    }
    if says.len() < bridge_numbers::telling::ROOM {
        return bridge_numbers::telling::NOT_CALLED;
    }
    let written = moxandril::bytes::to_page(text, page_of(page), out);
    bridge_numbers::telling::tell(bridge_numbers::answers::say_written(written), says)
}
