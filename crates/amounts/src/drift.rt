ghost use Rattle.std.specs.Prelude.{◌≡◌, pos};
ghost use Rattle.amounts.specs.Kind.{Gap};
ghost use Rattle.amounts.specs.Drifts.{drift, one};
ghost use Rattle.amounts.specs.DriftLaws.{drift_lawful};

use crate::amount::{Amount, MOST};
use decimals::{put, put_number};
use std::cmp::Ordering;

// The same limit of a change, up or down. The value of a constant calls nothing, hence `as`.
const MOST_CHANGE: i64 = MOST as i64;

// A weight, 0 to 10^18, with its yearly change, -10^18 to 10^18.
#[derive(Clone, Copy, PartialEq, Eq, PartialOrd, Ord, Debug)]
pub struct Drift {
    pub weight: u64,
    pub change: i64,
}

impl Amount for Drift {
    const LETTER: u8 = b'd';

    ghost kind = { drift };

    ghost lawful = { drift_lawful };

    fn line_letter() -> u8 {
        Self::LETTER
    }

    fn zero() -> Self {
        Drift {
            weight: 0,
            change: 0,
        }
    }

    fn is_value(self) -> bool {
        self.weight <= MOST && (-MOST_CHANGE..=MOST_CHANGE).contains(&self.change)
    }

    // By the weight, then by the change, as the derived order has it. It is made by hand: half again as quick as `cmp` or `then`, and a
    // step of an outlook compares amounts.
    fn ranked(self, other: Self) -> Ordering {
        if self.weight < other.weight {
            Ordering::Less
        } else if self.weight > other.weight {
            Ordering::Greater
        } else if self.change < other.change {
            Ordering::Less
        } else if self.change > other.change {
            Ordering::Greater
        } else {
            Ordering::Equal
        }
    }

    fn checked_add(self, other: Self) -> Option<Self> {
        Some(Drift {
            weight: self.weight.checked_add(other.weight)?,
            change: self.change.checked_add(other.change)?,
        })
    }

    fn checked_sub(self, other: Self) -> Option<Self> {
        Some(Drift {
            weight: self.weight.checked_sub(other.weight)?,
            change: self.change.checked_sub(other.change)?,
        })
    }

    fn write_text(self, buffer: &mut [u8]) -> usize {
        let weight = put_number(buffer, 0, self.weight).unwrap();
        let space = put(buffer, weight, b" ").unwrap();
        put_number(buffer, space, self.change).unwrap()
    }
}

impl Drift {
    // A number that is no value, though it lies between zero and a value, namely a weight of one: drift
    // is not closed below.
    pub fn beyond() -> Drift
        ensures value { result ≡ record { weight = 0; change = pos 1000000000000000001 } }
        ensures not_closed_below { Gap drift (drift.element result) (drift.element one) }
    {
        Drift {
            weight: 0,
            change: MOST_CHANGE + 1,
        }
    }
}
