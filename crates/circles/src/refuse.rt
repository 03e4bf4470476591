ghost use Rattle.std.specs.Prelude.{◌≡◌, ◌≤◌, ◌-◌, Some, None, MatchResult};
ghost use Rattle.circles.specs.Calls.{rates_fit, admit_refusal, bar_refusal, plan_refusal, outlook_refusal, balance_refusal, transfer_refusal};

use planner::{MEMBERS, PAIRS};
use refusals::Refusal;
use tables::{MOST_ODDS, Rates};

const MOST_CENTS: u64 = 1_000_000_000_000;

// The refusals of a circle. They take the numbers that are tried, and no State, so that each is its definition alone.

// Whether odds, and odds plus change, are in range.
fn rates_fit(rates: Rates) -> bool
    ensures { result ≡ rates_fit rates }
{
    let next = i64::from(rates.odds) + i64::from(rates.change);
    (1..=MOST_ODDS).contains(&rates.odds) && (1..=i64::from(MOST_ODDS)).contains(&next)
}

// Refuses an admission that may not be.
pub(crate) fn admission(total: u64, count: usize, stake: u64, rates: Rates) -> Result<(), Refusal>
    requires { total ≤ 1000000000000 }
    ensures { MatchResult result (λ _. admit_refusal total count stake rates ≡ None) (λ e. admit_refusal total count stake rates ≡ Some e) }
{
    if !(1..=MOST_CENTS).contains(&stake) {
        Err(Refusal::Stake)
    } else if !rates_fit(rates) {
        Err(Refusal::Rates)
    } else if total + stake > MOST_CENTS {
        Err(Refusal::TotalPassed)
    } else if count >= MEMBERS {
        Err(Refusal::CircleFull)
    } else {
        Ok(())
    }
}

// The place of the member with a number; a number that nobody has is refused.
pub(crate) fn member(count: usize, number: usize) -> Result<usize, Refusal>
    ensures { MatchResult result (λ k. (balance_refusal count number ≡ None) × (k ≡ number - 1)) (λ e. balance_refusal count number ≡ Some e) }
{
    if (1..=count).contains(&number) {
        Ok(number - 1)
    } else {
        Err(Refusal::NotAdmitted)
    }
}

// The places of giver and receiver.
pub(crate) fn pair(count: usize, giver: usize, receiver: usize) -> Result<(usize, usize), Refusal>
    ensures { MatchResult result (λ p. (transfer_refusal count giver receiver ≡ None) × (p ≡ (giver - 1, receiver - 1))) (λ e. transfer_refusal count giver receiver ≡ Some e) }
{
    Ok((member(count, giver)?, member(count, receiver)?))
}

// The places of giver and receiver of a bar, who are two members.
pub(crate) fn two(count: usize, giver: usize, receiver: usize) -> Result<(usize, usize), Refusal>
    ensures { MatchResult result (λ p. (bar_refusal count giver receiver ≡ None) × (p ≡ (giver - 1, receiver - 1))) (λ e. bar_refusal count giver receiver ≡ Some e) }
{
    let places = pair(count, giver, receiver)?;
    if giver == receiver {
        return Err(Refusal::SameMember);
    }
    Ok(places)
}

// Refuses a plan of nobody.
pub(crate) fn plan(count: usize) -> Result<(), Refusal>
    ensures { MatchResult result (λ _. plan_refusal count ≡ None) (λ e. plan_refusal count ≡ Some e) }
{
    if count == 0 {
        return Err(Refusal::NobodyAdmitted);
    }
    Ok(())
}

// Refuses an outlook of nobody, or in tables of other lengths than the outlook fills.
pub(crate) fn outlook(
    count: usize,
    transfers: usize,
    gives: usize,
    gets: usize,
) -> Result<(), Refusal>
    ensures { MatchResult result (λ _. outlook_refusal count transfers gives gets ≡ None) (λ e. outlook_refusal count transfers gives gets ≡ Some e) }
{
    if transfers != PAIRS || gives != MEMBERS || gets != MEMBERS {
        return Err(Refusal::Length);
    }
    plan(count)
}
