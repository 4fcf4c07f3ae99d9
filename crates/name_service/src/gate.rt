/// How a lock is held.
#[derive(Clone, Copy, Debug, PartialEq, Eq)]
pub enum Hold {
    /// By one of any number of callers that look.
    Read,
    /// By the one caller who changes something.
    Write,
}

/// What is called while a server's lock is held, once for each hold, so that tests see who stands inside it with whom.
pub trait Gate {
    /// Called inside the lock.
    fn inside(&self, hold: Hold);
}

/// A gate at which nothing happens.
#[derive(Clone, Copy, Debug)]
pub struct Free;

impl Gate for Free {
    fn inside(&self, _hold: Hold) {}
}
