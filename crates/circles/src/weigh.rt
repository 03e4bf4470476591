ghost use Rattle.std.specs.Prelude.{◌≡◌, ℕ, ◌<◌, length, slice_index_or};
ghost use Rattle.circles.specs.Members.{member_at};
ghost use Rattle.circles.specs.Sound.{Manned};
ghost use Rattle.circles.specs.Tasks.{weight_in, change_in, money_of, drift_of};
ghost use Rattle.circles.specs.Weighing.{Weighable, Weighing};
ghost use Rattle.circles.specs.WeighingLaws.{money_weighing, drift_weighing};

use crate::member::Member;
use crate::members::Members;
use amounts::{Amount, Drift, Money};
use planner::MEMBERS;

// A kind of amount in which members are weighed.
pub(crate) trait Weigh: Amount {
    ghost use Rattle.circles.specs.declared.member.Member.{Member};

    ghost weight: { Member → Self };

    // What a member weighs.
    fn weigh(member: Member) -> Self
        requires { Weighable member }
        ensures { result ≡ weight member };

    ghost weighing: { Weighing Self.kind weight };
}

// The weight of a member: its balance times its odds. It is exact, for balances within bounds; that of the crate samples takes
// every stake, and answers at most what a word holds.
fn weight_of(member: Member) -> u64
    requires { Weighable member }
    ensures { result ≡ weight_in member }
{
    member.balance * u64::from(member.rates.odds)
}

// In money a member weighs just that.
impl Weigh for Money {
    ghost weight = { money_of };

    ghost weighing = { money_weighing };

    fn weigh(member: Member) -> Money {
        Money(weight_of(member))
    }
}

// The yearly change of its weight: its balance times the yearly change of its odds.
#[tactic(auto, using(crate::proofs::Products::product_held, crate::proofs::Products::product_value))]
fn change_of(member: Member) -> i64
    requires { Weighable member }
    ensures { result ≡ change_in member }
{
    // `as`, since no From leads from u64 to i64; that the balance fits is proved
    member.balance as i64 * i64::from(member.rates.change)
}

// In drift it weighs the same, with the yearly change of it.
impl Weigh for Drift {
    ghost weight = { drift_of };

    ghost weighing = { drift_weighing };

    fn weigh(member: Member) -> Drift {
        Drift {
            weight: weight_of(member),
            change: change_of(member),
        }
    }
}

// The weight of each member, and nothing where nobody is.
#[tactic(auto, using(crate::proofs::Weights::weighable))]
pub(crate) fn weights<K: Weigh>(members: &Members) -> [K; MEMBERS]
    requires { Manned members.now }
    ensures size { length result ≡ 64 }
    ensures weights { (j : ℕ) (d : K) → j < members.now.count → slice_index_or result j d ≡ K.weight (member_at members.now j) }
{
    // no array::from_fn: at a type parameter it leaves open that so many values fit in memory
    let mut weights = [K::zero(); MEMBERS];
    for (j, member) in members.list[..members.count].iter().enumerate() {
        weights[j] = K::weigh(*member);
    }
    weights
}
