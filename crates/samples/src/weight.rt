ghost use Rattle.std.specs.Prelude.{◌≡◌, ◌*◌, ◌-◌, ◌^◌, min};

use amounts::Money;
use tables::Rates;

// The crate circles has its own for stakes within bounds, where no product is cut off.

// What a stake forfeits in a year by its odds, in cents and millionths; at most what a word holds.
pub fn weight_of(stake: u64, rates: Rates) -> Money
    ensures { result ≡ record { 0 = min (stake * rates.odds) (2 ^ 64 - 1) } }
{
    Money(stake.saturating_mul(u64::from(rates.odds)))
}

#[cfg(test)]
mod tests {
    use super::weight_of;
    use amounts::Money;
    use tables::Rates;

    #[test]
    fn stakes_are_weighed_by_odds(rt: HostRuntime) {
        let rates = Rates {
            odds: 11_000,
            change: -150,
        };
        assert_eq!(rt; weight_of(250, rates), Money(2_750_000));
        assert_eq!(rt; weight_of(u64::MAX, rates), Money(u64::MAX));
    }
}
