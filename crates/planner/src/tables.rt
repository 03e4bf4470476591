ghost use Rattle.std.specs.Prelude.{◌≡◌, ℕ, ◌+◌, ◌*◌, ◌<◌, true, length, nat_eq, slice_set, if◌then◌else◌};
ghost use Rattle.words.specs.Words.{bit};
ghost use Rattle.groups.specs.Sums.{above};
ghost use Rattle.planner.specs.Step.{InStep};

use crate::checks::MEMBERS;
use crate::state::Words;
use amounts::Amount;

// The three tables of a plan call, and the words of a search, which tell where an amount is above zero.
#[derive(Drop)]
pub(crate) struct Tables<'a, K: Amount> {
    pub(crate) words: Words,
    pub(crate) transfers: &'a mut [K],
    pub(crate) to_give: &'a mut [K],
    pub(crate) to_get: &'a mut [K],
    ghost kept: { InStep K.Amount.kind words.givers words.takers words.holders transfers.now to_give.now to_get.now },
}

// Whether an amount is above zero.
fn is_above<K: Amount>(amount: K) -> bool
    requires { K.Amount.kind.value amount ≡ true }
    ensures { result ≡ above K.Amount.kind.group (K.Amount.kind.element amount) }
{
    amount.compare(K::zero()).is_gt()
}

// Amounts are handed on as plain numbers, with a clause that they are values: the tables are the caller's, and a type of
// values would be made and taken apart at each entry.

// Writes one amount of a table, and in the table's word whether the member's amount is above zero.
fn write<K: Amount>(amounts: &mut [K], at: usize, amount: K, word: &mut u64, member: usize)
    requires place { at < length amounts.old }
    requires member { member < 64 }
    requires value { K.Amount.kind.value amount ≡ true }
    ensures written { amounts.new ≡ slice_set amounts.old at amount }
    ensures told { (k : ℕ) → bit word.new k ≡ (if nat_eq k member then above K.Amount.kind.group (K.Amount.kind.element amount) else bit word.old k) }
{
    amounts[at] = amount;
    *word = words::put(*word, member, is_above(amount));
}

impl<K: Amount> Tables<'_, K> {
    ghost use Rattle.planner.specs.Same.{Same};

    // Three methods over one `write`, and not one that is told the table: a match on it would stand in the clauses too.
    // What a method leaves as it was stands clause by clause, since each leaves something else.

    // Writes the transfer from giver j to receiver i.
    pub(crate) fn put_transfer(&mut self, j: usize, i: usize, amount: K)
        requires giver { j < self.old.words.n }
        requires receiver { i < self.old.words.n }
        requires value { K.Amount.kind.value amount ≡ true }
        ensures same { Same self.old self.new }
        ensures written { self.new.transfers.now ≡ slice_set self.old.transfers.now (64 * j + i) amount }
        ensures gives { self.new.to_give.now ≡ self.old.to_give.now }
        ensures gets { self.new.to_get.now ≡ self.old.to_get.now }
        ensures givers { self.new.words.givers ≡ self.old.words.givers }
    {
        let words = &mut self.words;
        write(
            self.transfers,
            MEMBERS * j + i,
            amount,
            &mut words.holders[i],
            j,
        );
    }

    // Writes what giver j has still to give.
    pub(crate) fn put_give(&mut self, j: usize, amount: K)
        requires giver { j < self.old.words.n }
        requires value { K.Amount.kind.value amount ≡ true }
        ensures same { Same self.old self.new }
        ensures written { self.new.to_give.now ≡ slice_set self.old.to_give.now j amount }
        ensures transfers { self.new.transfers.now ≡ self.old.transfers.now }
        ensures gets { self.new.to_get.now ≡ self.old.to_get.now }
    {
        write(self.to_give, j, amount, &mut self.words.givers, j);
    }

    // Writes what receiver i has still to get.
    pub(crate) fn put_get(&mut self, i: usize, amount: K)
        requires receiver { i < self.old.words.n }
        requires value { K.Amount.kind.value amount ≡ true }
        ensures same { Same self.old self.new }
        ensures written { self.new.to_get.now ≡ slice_set self.old.to_get.now i amount }
        ensures transfers { self.new.transfers.now ≡ self.old.transfers.now }
        ensures gives { self.new.to_give.now ≡ self.old.to_give.now }
    {
        write(self.to_get, i, amount, &mut self.words.takers, i);
    }
}
