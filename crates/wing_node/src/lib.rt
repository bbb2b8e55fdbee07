// The node library: what a node's bytes say.
#![tactic(auto)]

pub mod anew;
pub mod cursor;
pub mod definition;
pub mod field;
pub mod items;
pub mod node_type;
pub mod refusal;
pub mod utf8;
pub mod value;
pub mod walker;
pub mod writer;
