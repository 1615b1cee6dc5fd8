//! Exact numbers as text: the one written form of a number, and the forms that are read.
//!
//! A number is written with the least number of decimals, from 0 to 38, that shows it exactly, and
//! as `n/d` in lowest terms where there is none. It is read from digits with at most one point and
//! an optional exponent, and, where fractions are taken, from `n/d`. What is read is the exact
//! value: nothing is rounded.
#![tactic(auto)]

pub mod decimal_form;
mod display;
pub mod form;
pub mod laws;
mod mantissa;
pub mod naturals;
mod reach;
mod reading;
mod scaling;
mod short;
mod writing;

pub use display::Displayed;
pub use fractions::Numbers;
pub use reach::reaches;
pub use reading::{ReadNumber, read};
pub use writing::{push, write};
