// Plans a table of small circles and a few large ones, and prints what each gives.
#![tactic(auto)]

ghost use Rattle.std.specs.Iterator.{IsFinite};

mod circles;

use amounts::{Amount, Money};
use anyhow::Context;
use planner::{Answer, MEMBERS, PAIRS, plan};
use refusals::Refusal;
use samples::MemberSet;
use std::{io, iter};

// The five tables of a plan call, of just the lengths that it asks for.
#[derive(Drop)]
struct Circle<K> {
    n: usize,
    weights: [K; MEMBERS],
    words: [u64; MEMBERS],
    transfers: [K; PAIRS],
    to_give: [K; MEMBERS],
    to_get: [K; MEMBERS],
}

impl<K: Amount + Drop> Circle<K> {
    // A circle of nobody. It is filled where it stands, since its tables are large to hand on.
    fn new() -> Circle<K> {
        let zero = K::zero();
        Circle {
            n: 0,
            weights: [zero; MEMBERS],
            words: [0; MEMBERS],
            transfers: [zero; PAIRS],
            to_give: [zero; MEMBERS],
            to_get: [zero; MEMBERS],
        }
    }

    // Makes it a circle of up to 64 members, each with its weight and its permission word.
    fn fill<I: Iterator<Item = (K, u64)> + Drop>(&mut self, members: I)
        requires can { I.can_next members }
        requires ends { IsFinite (I.remaining members) }
    {
        let rows = self.weights.iter_mut().zip(self.words.iter_mut());
        for (n, ((weight, word), member)) in (1..=MEMBERS).zip(rows.zip(members)) {
            self.n = n;
            (*weight, *word) = member;
        }
    }

    fn plan(&mut self) -> Result<Answer, Refusal> {
        plan(
            self.n,
            &self.weights,
            &self.words,
            &mut self.transfers,
            &mut self.to_give,
            &mut self.to_get,
        )
    }
}

// Each program words an answer its own way, so that an `Answer` has no text to print.
fn print_answer(rt: &impl Print, answer: Answer) -> io::Result<()> {
    match answer {
        Answer::Plan { steps } => print!(rt; "plan in {steps} steps"),
        Answer::Outgrown { steps } => print!(rt; "outgrown in {steps} steps"),
        Answer::Blocked { steps, members } => {
            print!(rt; "blocked in {steps} steps by{}", MemberSet(members))
        }
    }
}

fn print_transfers(rt: &impl Print, circle: &Circle<Money>) -> io::Result<()> {
    for (place, amount) in circle.transfers.iter().enumerate() {
        if amount.0 > 0 {
            let (giver, receiver) = (place / MEMBERS + 1, place % MEMBERS + 1);
            println!(rt; "  {giver} to {receiver}: {}", amount.0)?;
        }
    }
    Ok(())
}

// Checksums are told modulo this prime.
const PRIME: u64 = 1_000_000_007;

// A number that tells tables of transfers apart.
fn checksum(transfers: &[Money; PAIRS]) -> u64 {
    (1..=u64::MAX)
        .zip(transfers)
        .fold(0, |sum: u64, (place, amount)| {
            (sum % PRIME + place % PRIME * (amount.0 % PRIME)) % PRIME
        })
}

fn print_small(rt: &impl Print) -> anyhow::Result<()> {
    for (number, members) in (1..=u64::MAX).zip(circles::CIRCLES) {
        let members = members.iter().map(|(weight, word)| (Money(*weight), *word));
        let mut circle = Circle::new();
        circle.fill(members);
        let answer = circle.plan().context("a circle of the table")?;
        print!(rt; "{number}: ")?;
        print_answer(rt, answer)?;
        println!(rt; "")?;
        print_transfers(rt, &circle)?;
    }
    Ok(())
}

// Plans a circle of members, each with its weight and its permission word.
fn print_large<I: Iterator<Item = (Money, u64)> + Drop>(
    rt: &impl Print,
    name: &str,
    members: I,
) -> anyhow::Result<()>
    requires can { I.can_next members }
    requires ends { IsFinite (I.remaining members) }
{
    let mut circle = Circle::new();
    circle.fill(members);
    let answer = circle.plan().context("a large circle")?;
    print!(rt; "{name}: ")?;
    print_answer(rt, answer)?;
    println!(rt; ", check {}", checksum(&circle.transfers))?;
    Ok(())
}

// The next after a place in a ring of 64.
fn next(place: u32) -> u64 {
    0b10u64.rotate_left(place)
}

// Everybody but the member at a place.
fn others(place: u32) -> u64 {
    (!0b1u64).rotate_left(place)
}

// Weights of nine digits, as good as at random.
fn nine_digits(state: &mut u64) -> u64 {
    *state ^= *state << 13;
    *state ^= *state >> 7;
    *state ^= *state << 17;
    100_000_000 + *state % 900_000_000
}

// Where the weights of nine digits begin.
const SEED: u64 = 88172645463325252;

fn run(rt: &impl Print) -> anyhow::Result<()> {
    print_small(rt)?;
    let mut state = SEED;
    print_large(
        rt,
        "64 members without bars",
        (0..64).map(|place| (Money(nine_digits(&mut state)), others(place))),
    )?;
    let mut state = SEED;
    print_large(
        rt,
        "64 members who bar all but the next",
        (0..64).map(|place| (Money(nine_digits(&mut state)), next(place))),
    )?;
    print_large(
        rt,
        "64 equal members in a ring, to the next",
        (0..64).map(|place| (Money(1_000), next(place))),
    )?;
    print_large(
        rt,
        "64 equal members in a ring, to the next two",
        (0..64).map(|place| (Money(1_000), 0b110u64.rotate_left(place))),
    )?;
    let heavy = (Money(1_000_000_000_000), others(0));
    let light = (1..64).map(|place| (Money(1_000), others(place)));
    print_large(
        rt,
        "64 members, one too heavy",
        iter::once(heavy).chain(light),
    )?;
    let alone = (Money(63_000), others(0));
    let rest = (1..64).map(|_| (Money(1_000), 0b1));
    print_large(
        rt,
        "64 members, one who must get from all others",
        iter::once(alone).chain(rest),
    )
}

fn main(rt: HostRuntime) -> anyhow::Result<()> {
    run(&rt)
}

#[cfg(test)]
mod tests {
    use super::*;
    use amounts::Drift;

    // the limit as it is stated, apart from the code that is tried
    const MOST_CHANGE: i64 = 1_000_000_000_000_000_000;

    fn drift(weight: u64, change: i64) -> Drift {
        Drift { weight, change }
    }

    #[test]
    fn three_members_without_bars(rt: HostRuntime) {
        let members = [(Money(2), 0b110), (Money(3), 0b101), (Money(4), 0b011)];
        let mut circle = Circle::new();
        circle.fill(members.into_iter());
        assert_eq!(rt; circle.plan(), Ok(Answer::Plan { steps: 6 }));
        assert_eq!(rt; circle.transfers[1], Money(1));
        assert_eq!(rt; circle.transfers[2], Money(1));
        assert_eq!(rt; circle.transfers[66], Money(3));
        assert_eq!(rt; circle.transfers[128], Money(2));
        assert_eq!(rt; circle.transfers[129], Money(2));
    }

    #[test]
    fn one_of_two_blocks(rt: HostRuntime) {
        let members = [(Money(1), 0b10), (Money(2), 0b01)];
        let mut circle = Circle::new();
        circle.fill(members.into_iter());
        assert_eq!(rt;
            circle.plan(),
            Ok(Answer::Blocked {
                steps: 2,
                members: 0b10,
            })
        );
    }

    #[test]
    fn one_member_alone(rt: HostRuntime) {
        let mut circle = Circle::new();
        circle.fill([(Money(5), 0)].into_iter());
        assert_eq!(rt;
            circle.plan(),
            Ok(Answer::Blocked {
                steps: 0,
                members: 1,
            })
        );
    }

    #[test]
    fn drifts_that_outgrow(rt: HostRuntime) {
        let members = [
            (drift(5, MOST_CHANGE), 0b10),
            (drift(5, -MOST_CHANGE), 0b01),
        ];
        let mut circle = Circle::new();
        circle.fill(members.into_iter());
        assert_eq!(rt; circle.plan(), Ok(Answer::Outgrown { steps: 0 }));
        assert_eq!(rt; circle.transfers[1], drift(0, 0));
    }

    #[test]
    fn refusals_in_their_order(rt: HostRuntime) {
        let mut circle = Circle::new();
        circle.fill([(Money(1_000_000_000_000_000_001), 1)].into_iter());
        let short = [Money(0); 63];
        let answer = plan(
            1,
            &short,
            &circle.words,
            &mut circle.transfers,
            &mut circle.to_give,
            &mut circle.to_get,
        );
        assert_eq!(rt; answer, Err(Refusal::Length));
        circle.n = 0;
        assert_eq!(rt; circle.plan(), Err(Refusal::MemberRange));
        circle.n = 65;
        assert_eq!(rt; circle.plan(), Err(Refusal::MemberRange));
        circle.n = 2;
        assert_eq!(rt; circle.plan(), Err(Refusal::PermissionWord));
        circle.words[0] = 0b100;
        assert_eq!(rt; circle.plan(), Err(Refusal::PermissionWord));
        circle.words[0] = 0b10;
        assert_eq!(rt; circle.plan(), Err(Refusal::NotAnAmount));
    }

    #[test]
    fn drift_below_zero_is_refused(rt: HostRuntime) {
        let mut circle = Circle::new();
        circle.fill([(drift(0, -1), 0)].into_iter());
        assert_eq!(rt; circle.plan(), Err(Refusal::NotAnAmount));
        let mut circle = Circle::new();
        circle.fill([(drift(0, 1), 0)].into_iter());
        assert_eq!(rt;
            circle.plan(),
            Ok(Answer::Blocked {
                steps: 0,
                members: 1,
            })
        );
    }
}
