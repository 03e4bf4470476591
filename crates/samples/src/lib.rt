// What the programs that show samples share: how a set of members is printed, a mortality table, and what a stake weighs.
#![tactic(auto)]

mod members;
mod table;
mod weight;

pub use members::MemberSet;
pub use table::sample_table;
pub use weight::weight_of;
