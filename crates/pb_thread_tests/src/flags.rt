//! Flags that one thread sets and others wait for.
use std::sync::atomic::{AtomicBool, Ordering};
use std::thread::yield_now;

/// How often a wait looks before it gives up.
const TURNS: u32 = 100_000_000;

/// A flag, which notes a wait for it that was given up.
#[derive(Drop)]
pub struct Flag {
    set: AtomicBool,
    missed: AtomicBool,
}

impl Flag {
    /// A flag that isn't set.
    pub const fn new() -> Self {
        Flag {
            set: AtomicBool::new(false),
            missed: AtomicBool::new(false),
        }
    }

    /// Sets the flag.
    pub fn set(&self) {
        self.set.store(true, Ordering::SeqCst);
    }

    /// Waits until the flag is set, or notes that it wasn't.
    pub fn wait(&self) {
        for _ in 0..TURNS {
            if self.set.load(Ordering::SeqCst) {
                return;
            }
            yield_now();
        }
        self.missed.store(true, Ordering::SeqCst);
    }

    /// Whether it was set, and no wait for it was given up.
    pub fn was_met(&self) -> bool {
        self.set.load(Ordering::SeqCst) && !self.missed.load(Ordering::SeqCst)
    }
}

/// What a device that is held shares with those who look on: it says that it is inside, and goes on once so many others were busy.
#[derive(Drop)]
pub struct Hall {
    pub inside: Flag,
    pub busy: [Flag; 2],
}

impl Hall {
    /// Nobody is inside, and nobody was busy.
    pub const fn new() -> Self {
        Hall {
            inside: Flag::new(),
            busy: [Flag::new(), Flag::new()],
        }
    }

    /// Says that somebody is inside, and waits until the first of the others, or both, were busy.
    pub fn hold(&self, others: usize) {
        self.inside.set();
        for flag in self.busy.iter().take(others) {
            flag.wait();
        }
    }

    /// Notes that one of the clients 1 and 2 was busy.
    pub fn note_busy(&self, client: u32) {
        match client {
            1 => self.busy[0].set(),
            2 => self.busy[1].set(),
            _ => {}
        }
    }
}
