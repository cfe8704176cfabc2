// What a call tells its caller: numbers in a lent slice, for callers that pass numbers and slices alone.
ghost use Rattle.std.specs.Prelude.{◌≤◌, ◌≡◌, length, take};
ghost use Rattle.bridge_numbers.specs.Telling.{places, saying, put, roomy, Tells};

// The reply where nothing is called: C has no Option.
pub const NOT_CALLED: usize = 18_446_744_073_709_551_615;
// The places that a call asks of the slice in which it tells.
pub const ROOM: usize = 8;
// The most numbers that are said of an answer.
pub const PLACES: usize = 5;

// What is said of an answer: so many of the numbers. An array with their count beside it, since nothing lies on a heap.
#[derive(Clone, Copy)]
pub struct Said {
    pub numbers: [usize; PLACES],
    pub count: usize,
}

// Puts so many of the numbers at the start of a slice: without a loop, so that a count that is known leaves plain stores; a
// copy of a slice of so many would be a call of C's memcpy.
fn put_each(numbers: [usize; PLACES], n: usize, says: &mut [usize])
    requires { (n ≤ places) × (places ≤ length says.old) }
    ensures { says.new ≡ put (take n numbers) says.old }
{
    if n == 0 {
        return;
    }
    says[0] = numbers[0];
    if n == 1 {
        return;
    }
    says[1] = numbers[1];
    if n == 2 {
        return;
    }
    says[2] = numbers[2];
    if n == 3 {
        return;
    }
    says[3] = numbers[3];
    if n == 4 {
        return;
    }
    says[4] = numbers[4];
}

// Tells what is said, where the slice has room for it.
pub fn tell(said: Said, says: &mut [usize]) -> usize
    ensures { Tells (roomy says.old) (saying said) says.old says.new result }
{
    if says.len() < ROOM {
        return NOT_CALLED;
    }
    let numbers = said.numbers;
    let n = PLACES.min(said.count);
    put_each(numbers, n, says);
    n
}
