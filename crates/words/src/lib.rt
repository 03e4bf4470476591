// Sets of members as 64-bit words, member k at place k, and loops over their places in rising number.
#![tactic(auto)]

mod places;
mod word;

pub use places::Places;
pub use word::{both, except, first, has, put, with, without};
