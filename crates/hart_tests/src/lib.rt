//! The calls of the instruction set and of harts, as tests: words that an assembler made, and what single instructions do.
#![tactic(auto)]

#[cfg(test)]
mod of_ddm_types;
#[cfg(test)]
mod of_rv_hart;
#[cfg(test)]
mod with_rv_decode;
#[cfg(test)]
mod with_rv_flat;
#[cfg(test)]
mod with_rv_hart;
