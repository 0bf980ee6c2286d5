//! Where a test may hold a worker up.

/// Where a test may hold a worker up.
pub trait Gate: Sync {
    /// Called after gathering and directly before publishing. Workers are numbered from 1; the caller that finishes missing jobs is 0.
    fn before_publish(&self, worker: u32, job: u64);
    /// Called after each decided publish.
    fn after_publish(&self, worker: u32, job: u64, accepted: bool);
}

/// A gate whose two calls do nothing.
pub struct OpenGate;

impl Gate for OpenGate {
    fn before_publish(&self, _worker: u32, _job: u64) {}

    fn after_publish(&self, _worker: u32, _job: u64, _accepted: bool) {}
}
