// A phrase that is sought: both searches answer alike, and where it is found the bytes are its own and lookups grant.
#![tactic(auto)]

ghost use Rattle.std.specs.Prelude.{◌≡◌, true};
ghost use Rattle.demand_find.specs.Inside.Found.{IsPlace};

use place::{Bytes, Points, Units};

// The plain search and the two-way search answer alike, on every pair.
pub fn found_alike(entry: &[u8], needle: &[u8]) -> bool
    ensures { result ≡ true }
{
    find::find(entry, needle) == find::find_plain(entry, needle)
}

// Does a lookup by bytes grant a place there, which its units and its code points find too?
fn is_place(text: &[u8], offset: usize) -> bool
    requires { IsPlace text.now offset }
    ensures { result ≡ true }
{
    let found = place_lookup::at_byte(text, Bytes(offset));
    let Ok(p) = found else {
        return false;
    };
    (place_lookup::at_unit(text, Units(p.units)) == found)
        & (place_lookup::at_point(text, Points(p.points)) == found)
}

// Where a phrase is found, its start and its end are places of the entry, in every measure that finds one by its count.
pub fn found_at_places(entry: &[u8], needle: &[u8]) -> bool
    ensures { result ≡ true }
{
    let Ok(Some(k)) = find::find(entry, needle) else {
        return true;
    };
    is_place(entry, k) & is_place(entry, k + needle.len())
}

// Where a phrase is found, the entry has its bytes there and is handed back from there on; where not, nothing is.
pub fn found_is_handed_back(entry: &[u8], needle: &[u8]) -> bool
    ensures { result ≡ true }
{
    let rest = find::find_rest(entry, needle);
    match find::find(entry, needle) {
        Ok(Some(k)) => (rest == &entry[k..]) & (&entry[k..k + needle.len()] == needle),
        _ => rest.is_empty(),
    }
}
