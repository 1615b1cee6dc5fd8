//! A law of the profile of MPS text: what is read as a text of decimal numbers is read the same where fractions are taken. The function
//! here does nothing when it runs: it states the law, and its check proves it.
#![tactic(auto)]

pub mod laws;
