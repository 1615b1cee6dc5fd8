//! Numbers, ends and lists as they are kept for long: in few bytes, on the heap where they are long, and once for several owners.
#![tactic(auto)]

mod apart;
mod kept;
mod shared;

pub use apart::{EndApart, NumberApart, TermsApart};
pub use kept::{KeptEnd, KeptNumber};
pub use shared::SharedTerms;
