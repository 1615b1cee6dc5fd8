//! What the duals of the rows make of a column's cost: its reduced cost, by exact sums of products.
#![tactic(auto)]

mod products;
mod reduced_costs;

pub use products::plus_product;
pub use reduced_costs::reduced_cost;
