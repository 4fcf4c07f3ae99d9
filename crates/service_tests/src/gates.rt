//! Gates that notice who passes them.

use name_service::gate::{Gate, Hold};
use std::hint::spin_loop;
use std::sync::Arc;
use std::sync::atomic::{AtomicU64, Ordering};

/// A gate that counts how often it is passed, to look and to change something.
#[derive(Drop)]
pub struct Counting {
    pub reads: Arc<AtomicU64>,
    pub writes: Arc<AtomicU64>,
}

impl Gate for Counting {
    fn inside(&self, hold: Hold) {
        let count = match hold {
            Hold::Read => &self.reads,
            Hold::Write => &self.writes,
        };
        count.fetch_add(1, Ordering::SeqCst);
    }
}

/// A gate that keeps who looks inside the lock until another does so too, for at most 1,000,000,000 turns, and counts those who met another.
#[derive(Drop)]
pub struct Meeting {
    pub inside: Arc<AtomicU64>,
    pub met: Arc<AtomicU64>,
}

impl Gate for Meeting {
    fn inside(&self, _hold: Hold) {
        self.inside.fetch_add(1, Ordering::SeqCst);
        for _turn in 0..1_000_000_000 {
            if self.inside.load(Ordering::SeqCst) > 1 {
                self.met.fetch_add(1, Ordering::SeqCst);
                return;
            }
            spin_loop();
        }
    }
}
