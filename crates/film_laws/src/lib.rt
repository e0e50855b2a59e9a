//! What holds of the films of accepted trees and images, as theorems.
#![tactic(auto)]

pub mod laws;
