//! Which arguments the published programs demand of one another, and what their runs there come to: tables that are mended where a
//! program is replaced.
#![tactic(auto)]

mod building;
mod caller;
mod checking;
mod checks;
mod counting;
mod demand;
mod demanding;
mod dropping;
mod entry;
mod forgetting;
mod frame;
mod gathering;
mod holding;
mod known;
mod laws;
mod leading;
mod making;
mod mending;
mod merging;
mod names;
mod node;
mod raising;
mod range;
mod reaching;
mod remade;
mod replacing;
mod settling;
mod slot;
mod slots;
mod standing;
mod step;
mod tables;
mod upward;
mod work;
mod writing;

pub use caller::Caller;
pub use demand::Demand;
pub use node::{Folder, Node, Nodes};
pub use tables::Tables;
