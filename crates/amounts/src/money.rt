ghost use Rattle.std.specs.Prelude.{◌≡◌, true, ℤ, int_le};
ghost use Rattle.amounts.specs.Kind.{ClosedBelow};
ghost use Rattle.amounts.specs.Moneys.{money};
ghost use Rattle.amounts.specs.MoneyLaws.{money_lawful};

use crate::amount::{Amount, MOST};
use decimals::put_number;
use std::cmp::Ordering;

// An amount of money in the smallest unit: 0 to 10^18.
#[repr(C)]
#[derive(Clone, Copy, PartialEq, Eq, PartialOrd, Ord, Debug)]
pub struct Money(pub u64);

impl Amount for Money {
    const LETTER: u8 = b'm';

    ghost kind = { money };

    ghost lawful = { money_lawful };

    fn line_letter() -> u8 {
        Self::LETTER
    }

    fn zero() -> Self {
        Money(0)
    }

    fn is_value(self) -> bool {
        self.0 <= MOST
    }

    // By the derived order of the fields.
    fn ranked(self, other: Self) -> Ordering {
        self.cmp(&other)
    }

    fn checked_add(self, other: Self) -> Option<Self> {
        self.0.checked_add(other.0).map(Money)
    }

    fn checked_sub(self, other: Self) -> Option<Self> {
        self.0.checked_sub(other.0).map(Money)
    }

    fn write_text(self, buffer: &mut [u8]) -> usize {
        put_number(buffer, 0, self.0).unwrap()
    }
}

impl Money {
    // The greatest amount of money. Whatever lies between zero and it is held too: money is closed below.
    pub fn most() -> Money
        ensures value { result ≡ record { 0 = 1000000000000000000 } }
        ensures greatest { (e : ℤ) → money.held e ≡ true → int_le e (money.element result) ≡ true }
        ensures closed_below { ClosedBelow money }
    {
        Money(MOST)
    }
}
