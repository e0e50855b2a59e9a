//! Worked examples of commands that are refused or fail, as tests: words, files, witnesses, reads and writes.
#![tactic(auto)]

#[cfg(test)]
mod faults;
#[cfg(test)]
mod of_ddm_outside;
#[cfg(test)]
mod one_byte_shelf;
#[cfg(test)]
mod refused_images;
#[cfg(test)]
mod refused_schedules;
#[cfg(test)]
mod refused_trees;
#[cfg(test)]
mod witnesses;
#[cfg(test)]
mod words;
