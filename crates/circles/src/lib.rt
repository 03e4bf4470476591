// Tontine circles: members, bars, plans and the outlook.
#![tactic(auto)]

mod admission;
mod ask;
mod bars;
mod circle;
mod member;
mod members;
mod plan;
mod refuse;
mod state;
mod weigh;

pub use circle::Circle;
pub use member::Member;
pub use members::Members;
pub use state::State;

#[cfg(test)]
mod tests;
