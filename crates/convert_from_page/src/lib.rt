// A whole text of an old page as UTF-8 bytes, into a lent output.
#![tactic(auto)]

ghost use Rattle.std.specs.Prelude.{◌≤◌, length};
ghost use Rattle.terms.specs.Form.{converted};
ghost use Rattle.terms.specs.Limits.{limit};
ghost use Rattle.terms.specs.Writing.{Writes, roomed, repair_says};
ghost use Rattle.utf8.specs.Scalar.{utf8};
ghost use Rattle.page.specs.Tables.{table_of};
ghost use Rattle.page.specs.Paged.{paged};

use crate::numbers::Table;
use page::Page;
use terms::{Decoder, Refusal};

mod numbers;

// The bytes of the text's numbers; refused where the output has no room for them.
fn fit(text: &[u8], table: &Table, out: &mut [u8]) -> Result<usize, Refusal>
    requires { length text.now ≤ limit }
    ensures { Writes
        (roomed (length out.old) (converted (paged table.now.numbers) utf8 text.now))
        (converted (paged table.now.numbers) utf8 text.now)
        out.old
        out.new
        result }
{
    if 3 * text.len() <= out.len() {
        return Ok(table.put(text, out));
    }
    let bytes = table.need(text);
    if out.len() < bytes {
        return Err(Refusal::NoRoom { needed: bytes });
    }
    Ok(table.put(text, out))
}

// A text of a page as bytes. No byte is refused.
pub fn to_bytes(text: &[u8], page: Page, out: &mut [u8]) -> Result<usize, Refusal>
    ensures { Writes
        (repair_says (length out.old) text.now (converted (paged (table_of page)) utf8 text.now))
        (converted (paged (table_of page)) utf8 text.now)
        out.old
        out.new
        result }
{
    if Decoder::LIMIT < text.len() {
        return Err(Refusal::OverLimit);
    }
    fit(text, &Table::of(page), out)
}
