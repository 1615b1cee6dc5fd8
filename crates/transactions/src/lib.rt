//! The transactions of records: who applied each, and which parts it had read, with how often each had changed.
#![tactic(auto)]

mod transactions;

pub use transactions::{PartRead, Transaction, Transactions};
