//! Tests of what no clause says and no text reaches: books with two workers, with none, with two passes, and with a proposal of another
//! program. They stand in a crate of their own, since a crate with tests is proved twice.
#![tactic(auto)]

#[cfg(test)]
mod foreign;
#[cfg(test)]
mod models;
#[cfg(test)]
mod passes;
#[cfg(test)]
mod threads;
#[cfg(test)]
mod workers;
