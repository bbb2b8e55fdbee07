// The listing of a mirror's table: printed into a lent output, and loaded back into a table.
#![tactic(auto)]

pub mod answer;
mod hex;
mod integer;
mod line;
pub mod load;
mod place;
pub mod print;
mod row;
mod scan;
