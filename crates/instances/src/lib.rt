//! What a run asks of instances: where rules are enabled, frozen versions of a problem and scans of them, what instances read and whether it
//! still stands, and proposals.
#![tactic(auto)]

mod chunk;
mod finding;
mod looking;
mod proposal;
mod reading;
mod reads;
mod scans;
mod tally;
mod version;

pub use chunk::Chunk;
pub use finding::{add_dominated, add_enabled, instance_beside, lines_beside, only_instance};
pub use line_groups;
pub use looking::look;
pub use proposal::Proposal;
pub use reading::{Differs, Reading};
pub use reads::{numbers_for, reading_for};
pub use rule_table;
pub use scans::{scan, scan_at};
pub use tally::Tally;
pub use version::Version;
