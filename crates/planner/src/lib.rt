// The general plan call, for any kind of amount.
#![tactic(auto)]

mod answer;
mod call;
mod change;
mod checks;
mod hunt;
mod run;
mod state;
mod tables;
mod walk;
mod way;
mod worked;

pub use answer::Answer;
pub use call::plan;
pub use checks::{MEMBERS, PAIRS};
pub use worked::worked_runs;
