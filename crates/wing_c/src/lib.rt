// The libraries for C and Rust to call: slices and numbers in, a definition's as a struct; a struct of numbers out. A refusal is its number with a minus sign,
// with the good of the string beside 1 and 5.
// A mirror is the bytes of a decoder state, a table buffer and its count, all kept by the caller.
#![tactic(auto)]

pub mod answers;
pub mod commands;
pub mod definitions;
mod kept;
pub mod laws;
pub mod listing;
pub mod mirror;
pub mod state;
pub mod windows;
pub mod writer;
