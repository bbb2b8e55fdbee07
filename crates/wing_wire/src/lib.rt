// The wire library. Reading: a console's bytes to units, units to tokens, tokens to events. Writing: set orders,
// requests and meters.
#![tactic(auto)]

pub mod earlier;
pub mod escape;
mod laying;
pub mod lent;
pub mod meter;
pub mod reader;
pub mod request;
pub mod set;
pub mod state;
pub mod stream;
pub mod token;
pub mod unit;
