// Reports the damages of standard input: a line for each of the first 32, and a line with the totals.
#![tactic(auto)]

ghost use Rattle.std.specs.Prelude.{◌≡◌, length};
ghost use Rattle.decoder.specs.Room.{most_fed};
ghost use Rattle.report.specs.Inside.Going.{Goes};

use std::io;
use std::io::Read;
use terms::{Decoder, Refusal};

// How the input stands: there may be more, or it ended in one way or another.
#[derive(Clone, Copy)]
pub enum End {
    More,
    Done,
    Failed,
    Refused(Refusal),
}

// That, and the decoder's state then.
#[derive(Clone, Copy)]
pub struct Taken {
    pub end: End,
    pub state: Decoder,
}

// The most places that a feed of 65,536 bytes can need.
fn most_places() -> [u8; 196611]
    ensures { most_fed 65536 ≡ length result }
{
    [0; 196611]
}

// Feeds the next bytes of the input to the decoder, as many as the piece holds.
fn take_piece(
    input: &mut impl Read,
    state: Decoder,
    piece: &mut [u8],
    out: &mut [u8],
    list: &mut [u32],
) -> Taken
    ensures { Goes result.end state.taken result.state.taken }
{
    let Ok(n) = input.read(piece) else {
        return Taken {
            end: End::Failed,
            state,
        };
    };
    if n == 0 {
        return Taken {
            end: End::Done,
            state,
        };
    }
    let fed = decoder::feed(state, &piece[..n], out, list);
    match fed.answer {
        Ok(_) => Taken {
            end: End::More,
            state: fed.state,
        },
        Err(r) => Taken {
            end: End::Refused(r),
            state,
        },
    }
}

// All of it, until it ends, fails or is refused.
fn take_input(
    input: &mut impl Read,
    mut state: Decoder,
    piece: &mut [u8],
    out: &mut [u8],
    list: &mut [u32],
) -> Taken {
    loop {
        let taken = take_piece(input, state, piece, out, list);
        match taken.end {
            End::More => state = taken.state,
            _ => return taken,
        }
    }
}

// The stored entries, a line for each: start, length and cause.
fn entries(rt: &impl Print, list: &[u32], count: usize) -> io::Result<()> {
    let (stored, _) = list.as_chunks::<{ Decoder::ENTRY }>();
    for [start, length, cause] in stored.iter().take(count) {
        println!(rt; "damage {start} {length} {cause}")?;
    }
    Ok(())
}

fn refused(rt: &impl Print, r: Refusal) -> io::Result<()> {
    println!(rt; "refused {}", r.number())
}

// The end of the text, and what was found in it.
fn totals(rt: &impl Print, state: Decoder, list: &mut [u32]) -> io::Result<()> {
    let mut out = [0u8; 3];
    match decoder::finish(state, &mut out, list).answer {
        Ok(all) => {
            entries(rt, list, all.count)?;
            println!(rt;
                "total {} whole {} damaged {}",
                all.count, all.whole, all.damaged
            )
        }
        Err(r) => refused(rt, r),
    }
}

fn main(rt: HostRuntime) -> io::Result<()> {
    let mut list = [0u32; 96];
    let mut piece = [0u8; 65536];
    let mut out = most_places();
    let mut input = rt.stdin();
    let start = decoder::start(32).state;
    let taken = take_input(&mut input, start, &mut piece, &mut out, &mut list);
    match taken.end {
        End::Done => totals(&rt, taken.state, &mut list),
        End::Refused(r) => refused(&rt, r),
        _ => println!(rt; "read failed"),
    }
}
