//! Tests of what no clause says and no text reaches: numbers, texts of numbers, programs that are made by hand, files, and records that are
//! made by hand, and what undoing these makes of rays. They stand in a crate of their own, since a crate with tests is proved twice.
#![tactic(auto)]

#[cfg(test)]
mod files;
#[cfg(test)]
mod numbers;
#[cfg(test)]
mod programs;
#[cfg(test)]
mod rays;
#[cfg(test)]
mod records;
#[cfg(test)]
mod texts;
