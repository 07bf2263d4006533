//! What a thread does that finds nothing to do.
ghost use Rattle.std.specs.Prelude.{◌≡◌, ◌<◌, ◌≤◌, ◌+◌, ◌-◌};
ghost use Rattle.live_shared.specs.declared.idle.TheConstants.{EAGER_LOOKS};

use std::sync::Wait;
use std::thread;
use std::thread::Parker;
use std::time::Duration;

/// How many looks that find nothing are followed by a yield alone.
const EAGER_LOOKS: u32 = 100;

/// How many microseconds a thread sleeps after each look behind those.
const SLEEP_MICROS: u64 = 50;

/// One look less is counted, since one has found something: a thread that finds much stays eager, one that finds little
/// sleeps.
pub fn found(looks: u32) -> u32
    ensures { result ≡ looks - 1 }
{
    looks.saturating_sub(1)
}

/// Leaves the processor to the other threads after a look that found nothing, and counts the look; after `EAGER_LOOKS` of
/// them it sleeps for `SLEEP_MICROS` (docs/DECISIONS.md, "Threads and rings").
pub fn rest<R: Wait>(rt: &R, looks: u32) -> u32
    ensures eager { looks < EAGER_LOOKS → result ≡ looks + 1 }
    ensures sleepy { EAGER_LOOKS ≤ looks → result ≡ looks }
{
    if looks < EAGER_LOOKS {
        thread::yield_now();
        return looks + 1;
    }
    sleep(rt, SLEEP_MICROS);
    looks
}

fn sleep<R: Wait>(rt: &R, micros: u64) {
    Parker::new().park_timeout(rt, Duration::from_micros(micros));
}

/// How many looks of a writer that find nothing are followed by a yield alone.
const WRITER_LOOKS: u32 = 8;

/// How many microseconds a writer asks to sleep at least. Linux adds as many as fifty.
const SHORTEST_SLEEP: u64 = 10;

/// How many it asks to sleep at most.
const LONGEST_SLEEP: u64 = 400;

/// How a writer waits for pieces. It yields behind few looks that find nothing, and then sleeps. Where there is one
/// session a ring of 256 pieces fills in some 100 microseconds, and where it is full the thread that matches waits;
/// where there are sixteen each fills in sixteen times that. So the writer asks for the shortest sleep first. Where
/// less than a quarter of the ring comes between two sleeps the next is twice as long, and where half of it does the
/// writer begins anew.
#[derive(Clone, Copy)]
pub struct Pace {
    half: usize,
    items: usize,
    looks: u32,
    micros: u64,
}

impl Pace {
    /// For a ring of so many items.
    pub fn of_ring(ring: usize) -> Pace {
        Pace {
            half: (ring / 2).max(1),
            items: 0,
            looks: 0,
            micros: SHORTEST_SLEEP,
        }
    }

    /// One item was found.
    pub fn found(&mut self) {
        self.items = self.items.saturating_add(1);
        if self.half <= self.items {
            self.items = 0;
            self.looks = 0;
            self.micros = SHORTEST_SLEEP;
        }
    }

    /// Leaves the processor to the other threads after a look that found nothing, or sleeps.
    pub fn rest<R: Wait>(&mut self, rt: &R) {
        if self.looks < WRITER_LOOKS {
            thread::yield_now();
            self.looks += 1;
            return;
        }
        sleep(rt, self.micros);
        if self.items < self.half / 2 {
            self.micros = self.micros.saturating_mul(2).min(LONGEST_SLEEP);
        }
        self.items = 0;
    }
}
