// Amounts: what a kind of amount is, and the kinds money and drift.
#![tactic(auto)]

mod amount;
mod drift;
mod money;

pub use amount::{Amount, lesser};
pub use drift::Drift;
pub use money::Money;

#[cfg(test)]
mod tests {
    use super::*;
    use refusals::Refusal;
    use std::cmp::Ordering;

    // the limits as they are stated, apart from the code that is tried
    const MOST: u64 = 1_000_000_000_000_000_000;

    const MOST_CHANGE: i64 = 1_000_000_000_000_000_000;

    fn drift(weight: u64, change: i64) -> Drift {
        Drift { weight, change }
    }

    #[test]
    fn weight_decides_before_change(rt: HostRuntime) {
        assert_eq!(rt; drift(1, -5).compare(drift(0, 3)), Ordering::Greater);
        assert_eq!(rt; drift(0, 3).compare(drift(1, -5)), Ordering::Less);
        assert_eq!(rt; drift(1, -5).compare(drift(1, -6)), Ordering::Greater);
        assert_eq!(rt; drift(1, -5).compare(drift(1, -5)), Ordering::Equal);
    }

    #[test]
    fn money_at_its_limits(rt: HostRuntime) {
        assert_eq!(rt; Money(MOST - 1).sum(Money(1)), Some(Money(MOST)));
        assert_eq!(rt; Money(MOST).sum(Money(1)), None);
        assert_eq!(rt; Money(MOST).sum(Money(0)), Some(Money(MOST)));
        assert_eq!(rt; Money(7).difference(Money(7)), Some(Money(0)));
        assert_eq!(rt; Money(7).difference(Money(8)), None);
        assert_eq!(rt; lesser(Money(8), Money(7)), Money(7));
        assert_eq!(rt; Money::zero(), Money(0));
    }

    #[test]
    fn drift_at_its_limits(rt: HostRuntime) {
        let most = drift(MOST, MOST_CHANGE);
        assert_eq!(rt;
            drift(MOST - 1, MOST_CHANGE - 1).sum(drift(1, 1)),
            Some(most)
        );
        assert_eq!(rt; most.sum(drift(1, 0)), None);
        assert_eq!(rt; most.sum(drift(0, 1)), None);
        assert_eq!(rt;
            drift(2, -MOST_CHANGE).difference(drift(1, 0)),
            Some(drift(1, -MOST_CHANGE))
        );
        assert_eq!(rt; drift(2, -MOST_CHANGE).difference(drift(1, 1)), None);
        assert_eq!(rt; drift(2, 0).difference(drift(3, 0)), None);
        assert!(rt; !Drift::beyond().is_value());
    }

    #[test]
    fn numbers_that_are_no_value(rt: HostRuntime) {
        let no_money = Money(MOST + 1);
        assert!(rt; !no_money.is_value());
        assert_eq!(rt; no_money.compare(Money(0)), Ordering::Equal);
        assert_eq!(rt; no_money.sum(Money(0)), None);
        assert_eq!(rt; no_money.difference(Money(1)), None);
        assert_eq!(rt; lesser(no_money, Money(0)), no_money);
        let no_drift = drift(0, -MOST_CHANGE - 1);
        assert!(rt; !no_drift.is_value());
        assert_eq!(rt; drift(5, 0).compare(no_drift), Ordering::Equal);
        assert_eq!(rt; no_drift.sum(drift(0, 1)), None);
        assert_eq!(rt; drift(5, 0).difference(no_drift), None);
    }

    #[test]
    fn texts_of_money(rt: HostRuntime) {
        let mut buffer = [b'.'; 40];
        assert_eq!(rt; Money(0).text(&mut buffer), Ok(1));
        assert!(rt; buffer[0] == b'0' && buffer[1] == b'.');
        assert_eq!(rt; Money(MOST).text(&mut buffer), Ok(19));
        assert!(rt;
            buffer[0] == b'1' && buffer[1] == b'0' && buffer[18] == b'0' && buffer[19] == b'.'
        );
    }

    #[test]
    fn texts_of_drift(rt: HostRuntime) {
        let mut buffer = [b'.'; 40];
        assert_eq!(rt; drift(7, -12).text(&mut buffer), Ok(5));
        assert!(rt; &buffer[0..6] == b"7 -12.".as_slice());
        assert_eq!(rt; drift(MOST, -MOST_CHANGE).text(&mut buffer), Ok(40));
        assert!(rt; &buffer[0..40] == b"1000000000000000000 -1000000000000000000".as_slice());
    }

    #[test]
    fn texts_refused(rt: HostRuntime) {
        let mut short = [b'.'; 39];
        assert_eq!(rt; Money(0).text(&mut short), Err(Refusal::Length));
        assert_eq!(rt; Money(MOST + 1).text(&mut short), Err(Refusal::Length));
        let mut buffer = [b'.'; 40];
        assert_eq!(rt;
            Money(MOST + 1).text(&mut buffer),
            Err(Refusal::NotAnAmount)
        );
        assert_eq!(rt;
            drift(MOST + 1, 0).text(&mut buffer),
            Err(Refusal::NotAnAmount)
        );
        assert!(rt; buffer[0] == b'.' && short[0] == b'.');
    }
}
