ghost use Rattle.std.specs.Prelude.{◌≡◌, ℕ, ◌<◌, ◌≤◌, true, ◌&&◌, length, IfOk, Some, None, MatchResult, nat_lt, slice_index};
ghost use Rattle.words.specs.Words.{bit};
ghost use Rattle.planner.specs.Calls.{plan_refusal, Planned, BeyondIgnored};
ghost use Rattle.planner.specs.Tables.{row, values};

use crate::answer::Answer;
use crate::checks::{MEMBERS, check};
use crate::state::Words;
use crate::tables::Tables;
use amounts::Amount;
use refusals::Refusal;

// Writes zero into each entry.
fn clear<K: Amount>(amounts: &mut [K])
    ensures values { values K.Amount.kind amounts.new ≡ true }
    ensures zeros { (i : ℕ) → row K.Amount.kind amounts.new i ≡ K.Amount.kind.group.nil }
{
    // `fill` would ask that a copy of an amount cannot fail, which no clause of the trait says
    for amount in amounts {
        *amount = K::zero();
    }
}

// The permission words of n givers, without places beyond n.
fn rules(n: usize, permissions: &[u64]) -> [u64; MEMBERS]
    requires size { n ≤ 64 }
    requires rows { n ≤ length permissions.now }
    ensures size { length result ≡ 64 }
    ensures rules { (j i : ℕ) → bit (slice_index result j) i ≡ (nat_lt j n && (nat_lt i n && bit (slice_index permissions.now j) i)) }
{
    let all = words::first(n);
    let mut r = [0; MEMBERS];
    // `r[j]` is written by index: a proof cannot name `r` in a loop over its `iter_mut`, and of `array::from_fn`, which was
    // tried too, the words that it makes stayed open.
    for (j, word) in permissions[..n].iter().enumerate() {
        r[j] = words::both(all, *word);
    }
    r
}

impl<K: Amount> Tables<'_, K> {
    ghost use Rattle.planner.specs.Same.{Same};

    // Writes each member's weight as what it has still to give and to get.
    fn weigh(&mut self, weights: &[K])
        requires size { length weights.now ≡ self.old.words.n }
        requires values { values K.Amount.kind weights.now ≡ true }
        requires gives { (i : ℕ) → row K.Amount.kind self.old.to_give.now i ≡ K.Amount.kind.group.nil }
        requires gets { (i : ℕ) → row K.Amount.kind self.old.to_get.now i ≡ K.Amount.kind.group.nil }
        ensures same { Same self.old self.new }
        ensures transfers { self.new.transfers.now ≡ self.old.transfers.now }
        ensures gives { (i : ℕ) → row K.Amount.kind self.new.to_give.now i ≡ row K.Amount.kind weights.now i }
        ensures gets { (i : ℕ) → row K.Amount.kind self.new.to_get.now i ≡ row K.Amount.kind weights.now i }
    {
        for (j, weight) in weights.iter().enumerate() {
            self.put_give(j, *weight);
            self.put_get(j, *weight);
        }
    }
}

// Fills the tables as a run begins, and runs. Its parameters are those of `plan`, which the C function has too.
fn start<K: Amount>(
    n: usize,
    weights: &[K],
    permissions: &[u64],
    transfers: &mut [K],
    to_give: &mut [K],
    to_get: &mut [K],
) -> Answer
    requires { plan_refusal K.Amount.kind n weights.now permissions.now transfers.old to_give.old to_get.old ≡ None }
    ensures { Planned K.Amount.kind n weights.now permissions.now result transfers.new to_give.new to_get.new }
{
    clear(transfers);
    clear(to_give);
    clear(to_get);
    let words = Words {
        n,
        permitted: rules(n, permissions),
        givers: 0,
        takers: 0,
        holders: [0; MEMBERS],
    };
    let mut tables = Tables {
        words,
        transfers,
        to_give,
        to_get,
    };
    tables.weigh(&weights[..n]);
    tables.run()
}

// Finds a fair plan of transfers among n members, or says why there is none.
//
// The tables hold 64 weights, 64 permission words (bit i - 1 of giver j's word is set if i may receive from
// j), 4,096 transfers with that from j to i at place 64 (j - 1) + (i - 1), 64 amounts still to give and 64 still
// to get; weights and words beyond n do not count. The last three are filled. A call that is refused
// leaves them as found. They are no struct: they are the caller's, and are judged before anything is said of them.
pub fn plan<K: Amount>(
    n: usize,
    weights: &[K],
    permissions: &[u64],
    transfers: &mut [K],
    to_give: &mut [K],
    to_get: &mut [K],
) -> Result<Answer, Refusal>
    ensures refused { MatchResult result (λ a. plan_refusal K.Amount.kind n weights.now permissions.now transfers.old to_give.old to_get.old ≡ None) (λ e. (plan_refusal K.Amount.kind n weights.now permissions.now transfers.old to_give.old to_get.old ≡ Some e) × (transfers.new ≡ transfers.old) × (to_give.new ≡ to_give.old) × (to_get.new ≡ to_get.old)) }
    ensures planned { IfOk result (λ a. Planned K.Amount.kind n weights.now permissions.now a transfers.new to_give.new to_get.new) }
    ensures beyond { BeyondIgnored K.Amount.kind n weights.now permissions.now transfers.old to_give.old to_get.old }
{
    check(n, weights, permissions, transfers, to_give, to_get)?;
    Ok(start(n, weights, permissions, transfers, to_give, to_get))
}
