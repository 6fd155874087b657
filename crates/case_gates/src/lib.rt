//! Gates for programs of cases: what is called before and after each number of a deal.
#![tactic(auto)]

use std::sync::atomic::Ordering::SeqCst;
use std::sync::atomic::{AtomicBool, AtomicU32};
use tile_pool::Gate;

/// So often a number that is kept back looks whether the other is done.
const TURNS: u32 = 200_000_000;

/// Keeps a number of each deal back until another one of the same deal is done, and gives up after so many turns: workers that run one
/// after another do. It counts how often both came. A deal that has one of the two numbers is to have both.
#[derive(Drop)]
pub struct Turns {
    first: u32,
    other: u32,
    begun: AtomicU32,
    done: AtomicU32,
    gave_up: AtomicBool,
}

impl Turns {
    /// Keeps the number `first` back until `other` is done.
    pub fn new(first: u32, other: u32) -> Turns {
        Turns {
            first,
            other,
            begun: AtomicU32::new(0),
            done: AtomicU32::new(0),
            gave_up: AtomicBool::new(false),
        }
    }

    /// Keeps nothing back: no deal has so great a number.
    pub fn none() -> Turns {
        Turns::new(u32::MAX, u32::MAX)
    }

    /// Whether the other number is done so many times before so many turns are over.
    fn is_done_in_time(&self, times: u32) -> bool {
        for _ in 0..TURNS {
            if self.done.load(SeqCst) >= times {
                return true;
            }
        }
        false
    }

    /// Whether it gave up.
    pub fn gave_up(&self) -> bool {
        self.gave_up.load(SeqCst)
    }

    /// In how many deals the one number was asked for and the other told.
    pub fn rounds(&self) -> u32 {
        self.begun.load(SeqCst).min(self.done.load(SeqCst))
    }
}

impl Gate for Turns {
    fn before(&self, number: u32) {
        if number == self.first {
            let round = self.begun.fetch_add(1, SeqCst).wrapping_add(1);
            if !self.is_done_in_time(round) {
                self.gave_up.store(true, SeqCst);
            }
        }
    }

    fn after(&self, number: u32) {
        if number == self.other {
            self.done.fetch_add(1, SeqCst);
        }
    }
}
