// The mirror library: the last value of each node, in a table of records in a lent buffer.
#![tactic(auto)]

pub mod answer;
mod bytes;
mod counts;
pub mod feed;
mod keep;
mod order;
pub mod origin;
pub mod query;
pub mod recall;
mod record;
mod send;
pub mod set;
mod store;
pub mod table;
