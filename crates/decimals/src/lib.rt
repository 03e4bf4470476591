// Texts and numbers in decimal digits, written into a caller's buffer.
#![tactic(auto)]

mod digits;
mod number;
mod spelling;
mod texts;

pub use number::Number;
pub use spelling::put_number;
pub use texts::put;

#[cfg(test)]
mod tests;
