// Where a needle first stands in an entry: the plain search, the two-way search, and the entry from the match to its end.
#![tactic(auto)]

ghost use Rattle.std.specs.Prelude.{◌≡◌};
ghost use Rattle.terms.specs.Told.{told_checked};
ghost use Rattle.terms.specs.Strict.{limited, check_says};
ghost use Rattle.utf8.specs.Bytes.{bytes};
ghost use Rattle.find.specs.Match.{told_match, find_says, rest_says};

use terms::{Decoder, Refusal};

mod ahead;
mod compare;
mod critical;
mod plain;
mod rare;
mod two_way;

// The checks before a search: 2 where either text is over the limit, then 1 with the first damage of the needle.
fn checked(entry: &[u8], needle: &[u8]) -> Result<(), Refusal>
    ensures { told_checked result ≡ limited entry.now (check_says bytes needle.now) }
{
    if Decoder::LIMIT < entry.len() {
        return Err(Refusal::OverLimit);
    }
    utf8_check::check(needle)
}

// The byte offset of the first match of a well-formed needle, if there is one, sought place by place.
pub fn find_plain(entry: &[u8], needle: &[u8]) -> Result<Option<usize>, Refusal>
    ensures { told_match result ≡ find_says entry.now needle.now }
{
    checked(entry, needle)?;
    Ok(plain::search(entry, needle))
}

// The same, by the two-way method: in constant memory, in a time that grows as both texts do.
pub fn find(entry: &[u8], needle: &[u8]) -> Result<Option<usize>, Refusal>
    ensures { told_match result ≡ find_says entry.now needle.now }
{
    checked(entry, needle)?;
    if needle.len() == 0 {
        return Ok(Some(0));
    }
    Ok(two_way::search(entry, needle))
}

// The entry from the first match to its end; the empty part where there is none, or where the search is refused.
pub fn find_rest<'a, 'b>(entry: &'a [u8], needle: &'b [u8]) -> &'a [u8]
    ensures { result.now ≡ rest_says entry.now needle.now }
{
    match find(entry, needle) {
        Ok(Some(k)) => &entry[k..],
        _ => &entry[..0],
    }
}
