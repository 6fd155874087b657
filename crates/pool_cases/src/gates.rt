//! What is called before and after each test.

use case_gates::Turns;
use std::sync::atomic::Ordering::SeqCst;
use std::sync::atomic::{AtomicBool, AtomicU32};
use tile_pool::Gate;

/// Keeps number 0 from its test until number 2 is done: of two workers that leave each other's numbers alone one has both. It also notes
/// whether number 2 began before number 3 was done, as it does where all draw from one counter.
#[derive(Drop)]
pub struct Theft {
    turns: Turns,
    three: AtomicBool,
    early: AtomicBool,
}

impl Theft {
    pub fn new() -> Theft {
        Theft {
            turns: Turns::new(0, 2),
            three: AtomicBool::new(false),
            early: AtomicBool::new(false),
        }
    }

    /// What keeps number 0 back.
    pub fn turns(&self) -> &Turns {
        &self.turns
    }

    /// Whether number 2 began before number 3 was done.
    pub fn was_early(&self) -> bool {
        self.early.load(SeqCst)
    }
}

impl Gate for Theft {
    fn before(&self, number: u32) {
        if number == 2 && !self.three.load(SeqCst) {
            self.early.store(true, SeqCst);
        }
        self.turns.before(number);
    }

    fn after(&self, number: u32) {
        self.turns.after(number);
        if number == 3 {
            self.three.store(true, SeqCst);
        }
    }
}

/// Counts the calls.
#[derive(Drop)]
pub struct Calls {
    before: AtomicU32,
    after: AtomicU32,
}

impl Calls {
    pub fn new() -> Calls {
        Calls {
            before: AtomicU32::new(0),
            after: AtomicU32::new(0),
        }
    }

    /// How many tests began.
    pub fn begun(&self) -> u32 {
        self.before.load(SeqCst)
    }

    /// How many ended.
    pub fn ended(&self) -> u32 {
        self.after.load(SeqCst)
    }
}

impl Gate for Calls {
    fn before(&self, _number: u32) {
        self.before.fetch_add(1, SeqCst);
    }

    fn after(&self, _number: u32) {
        self.after.fetch_add(1, SeqCst);
    }
}
