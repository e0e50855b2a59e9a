//! The calls that print reports, traces and fault lines, as tests: how they are used, and that those that take memory
//! succeed where there is enough.
#![tactic(auto)]

#[cfg(test)]
mod with_report;
