//! The results of readers, and the definitions that all grammars share.
#![tactic(auto)]

mod answer;
mod lengths;
mod why;

pub use answer::Scan;
pub use lengths::Lengths;
pub use why::Why;
