ghost use Rattle.std.specs.Prelude.{◌≡◌, ◌^◌, ◌≤◌, true, length, nat_lt};
ghost use Rattle.refusals.specs.Judged.{judged};
ghost use Rattle.planner.specs.Calls.{word_fits, words_fit, weight_fits, weights_fit, plan_refusal};

use amounts::Amount;
use refusals::Refusal;

// The most members of a circle: the length of the tables of a plan call that have an entry for each.
// Below, their number is a plain one with its bound in a clause, as the plan call takes it, and the one for C with it.
pub const MEMBERS: usize = 64;

// The length of the table of transfers, which has an entry for each pair.
pub const PAIRS: usize = 4096;

// Whether a word has no bit at place n or beyond it.
fn within(n: usize, permissions: u64) -> bool
    requires size { n ≤ 64 }
    ensures { result ≡ nat_lt permissions (2 ^ n) }
{
    permissions <= words::first(n)
}

// Whether a permission word permits neither its own giver nor anybody beyond n.
fn word_fits(n: usize, j: usize, permissions: u64) -> bool
    requires size { n ≤ 64 }
    requires giver { j ≤ 63 }
    ensures { result ≡ word_fits n j permissions }
{
    !words::has(permissions, j) && within(n, permissions)
}

// Whether the permission words of all n givers fit. They go by number, with which each is tried.
fn words_fit(n: usize, permissions: &[u64]) -> bool
    requires size { n ≤ 64 }
    requires room { n ≤ length permissions.now }
    ensures { result ≡ words_fit n permissions.now }
{
    (0..n).all(|j| word_fits(n, j, permissions[j]))
}

// Whether a weight is a value that is not below zero.
fn weight_fits<K: Amount>(weight: K) -> bool
    ensures { result ≡ weight_fits K.Amount.kind weight }
{
    weight.is_value() && !weight.compare(K::zero()).is_lt()
}

// Whether the first n weights fit.
fn weights_fit<K: Amount>(n: usize, weights: &[K]) -> bool
    requires room { n ≤ length weights.now }
    ensures { result ≡ weights_fit K.Amount.kind n weights.now }
{
    weights[..n].iter().all(|&weight| weight_fits(weight))
}

// Tries what a plan call is given; its parameters are those of `plan`.
pub(crate) fn check<K: Amount>(
    n: usize,
    weights: &[K],
    permissions: &[u64],
    transfers: &[K],
    to_give: &[K],
    to_get: &[K],
) -> Result<(), Refusal>
    ensures { result ≡ judged (plan_refusal K.Amount.kind n weights.now permissions.now transfers.now to_give.now to_get.now) tt }
{
    if weights.len() != MEMBERS
        || permissions.len() != MEMBERS
        || transfers.len() != PAIRS
        || to_give.len() != MEMBERS
        || to_get.len() != MEMBERS
    {
        return Err(Refusal::Length);
    }
    if !(1..=MEMBERS).contains(&n) {
        return Err(Refusal::MemberRange);
    }
    if !words_fit(n, permissions) {
        return Err(Refusal::PermissionWord);
    }
    if !weights_fit(n, weights) {
        return Err(Refusal::NotAnAmount);
    }
    Ok(())
}
