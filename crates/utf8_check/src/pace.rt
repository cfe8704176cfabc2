// The pace of a walk over a byte text: runs of whole segments are passed over at once, and where they are short, segments are read
// one by one for a while, so that dense damage is not slowed. No answer depends on it.
ghost use Rattle.std.specs.Prelude.{◌≡◌};
ghost use Rattle.utf8_check.specs.Pace.{wait_behind, paced_run, pace_behind};

// How many segments are still read one by one, and how many were to be read behind the last run.
#[derive(Clone, Copy)]
pub struct Pace {
    pub left: usize,
    pub wait: usize,
}

impl Pace {
    // The pace before anything was read: a run is looked for at once.
    pub const START: Pace = Pace { left: 0, wait: 1 };
}

// How many segments are read one by one behind a run: one, or twice as many as behind the last one where it was short.
pub fn wait_behind(wait: usize, run: usize) -> usize
    ensures { result ≡ wait_behind wait run }
{
    if 16 <= run {
        return 1;
    }
    if 1024 <= wait {
        return 1024;
    }
    2 * wait
}

// How many bytes of a text are passed over at once: its whole run, or none where segments are read one by one.
pub fn paced_run(text: &[u8], pace: Pace) -> usize
    ensures { result ≡ paced_run text.now pace }
{
    if 0 < pace.left {
        return 0;
    }
    crate::whole_run(text)
}

// The pace behind a run and one segment more.
pub fn pace_behind(pace: Pace, run: usize) -> Pace
    ensures { result ≡ pace_behind pace run }
{
    if 0 < pace.left {
        return Pace {
            left: pace.left - 1,
            wait: pace.wait,
        };
    }
    let wait = wait_behind(pace.wait, run);
    if wait == 0 {
        return Pace::START;
    }
    Pace {
        left: wait - 1,
        wait,
    }
}
