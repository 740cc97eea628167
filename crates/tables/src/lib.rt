// The two tables that the indices of a field block point into (RFC 7541): the static one and the dynamic one.
#![tactic(auto)]

mod memory;
mod name;
pub mod refusal;
pub mod span;
pub mod static_table;
pub mod table;
