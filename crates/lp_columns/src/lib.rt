//! The reductions of columns, on the meaning of a program with original ids: K3 (fixed column), K4 (rounded bounds), K10 (dual
//! fixing), K11 (dominated column), K16 (parallel columns), K17 (empty column), and the verdicts V1 at a column (crossed
//! bounds) and V3 (unbounded column).
//!
//! `specs/` says where each is enabled, what it changes and how it is undone. [`laws`] states what each keeps.
#![tactic(auto)]

pub mod laws;
