// How many bytes at the start of a text are below 0x80, a block of 64 at a time.
#![tactic(auto)]

ghost use Rattle.std.specs.Prelude.{◌≡◌, leb};
ghost use Rattle.ascii.specs.Ascii.{leading, run_of};

// Are the bytes of a block below 0x80? By the largest of them: a loop that stops at no byte is wide.
fn is_ascii(block: &[u8; 64]) -> bool
    ensures { result ≡ leb 64 (leading block.now) }
{
    block.iter().fold(0, |top: u8, b| top.max(*b)) < 0x80
}

// So many bytes at the start are below 0x80, by whole blocks.
pub fn run(text: &[u8]) -> usize
    ensures { result ≡ run_of text.now }
{
    let mut rest = text;
    while let Some((block, behind)) = rest.split_first_chunk::<64>() {
        if !is_ascii(block) {
            break;
        }
        rest = behind;
    }
    text.len() - rest.len()
}
