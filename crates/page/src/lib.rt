// Old single-byte pages: the number that each byte of a page stands for.
#![tactic(auto)]

ghost use Rattle.std.specs.Prelude.{◌≡◌};
ghost use Rattle.page.specs.Tables.{table_of};

mod tables;

// The pages that old carriages send.
#[derive(Clone, Copy)]
pub enum Page {
    Iso8859_1,
    Iso8859_5,
    Iso8859_15,
}

// The number of each byte in a page.
pub fn numbers(page: Page) -> [u16; 256]
    ensures { result ≡ table_of page }
{
    match page {
        Page::Iso8859_1 => tables::ISO_8859_1,
        Page::Iso8859_5 => tables::ISO_8859_5,
        Page::Iso8859_15 => tables::ISO_8859_15,
    }
}
