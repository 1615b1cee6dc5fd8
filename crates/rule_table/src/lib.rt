//! What each rule is in code: whether an instance is enabled, its change, the parts that it reads, and the lists of rules. What differs from
//! rule to rule stands in tables, a line a rule.
#![tactic(auto)]

mod bounds;
mod enabled;
mod listing;
mod parts;

pub use activity_rules;
pub use coef_rules;
pub use dual_rules;
pub use enabled::{change, is_enabled, tightening_by};
pub use listing::{
    goes_by_groups, is_of_rows, reach_of, reduction_rules, rests_on_reading, rule_of,
    says_no_point, shares_reading, verdict_rules,
};
pub use parts::{head, parts_read};
