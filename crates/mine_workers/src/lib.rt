//! Workers that decide the jobs of a desk as they come, what they find for each of them, and the store that they share.
#![tactic(auto)]

mod accepting;
mod alone;
mod choosing;
mod gate;
mod held;
mod news;
mod renewing;
mod run;
mod shared;
#[cfg(test)]
mod shared_tests;
mod source;
#[cfg(test)]
mod tests;
mod working;

pub use alone::finish;
pub use gate::{Gate, OpenGate};
pub use held::Held;
pub use news::News;
pub use run::run_jobs;
pub use shared::SharedStore;
pub use source::JobSource;
