ghost use Rattle.std.specs.Prelude.{◌≡◌, true};
ghost use Rattle.planner.specs.Changes.{amount_of, changed, Changed};

use amounts::Amount;

// An amount that is added to another, or taken from it.
#[derive(Clone, Copy)]
pub(crate) enum Change<K: Amount> {
    Add(K),
    Take(K),
}

impl<K: Amount> Change<K> {
    // What the change makes of an amount; nothing where that is not held.
    pub(crate) fn of(self, amount: K) -> Option<K>
        requires amount { K.Amount.kind.value amount ≡ true }
        requires change { K.Amount.kind.value (amount_of self) ≡ true }
        ensures { Changed K.Amount.kind self (K.Amount.kind.element amount) result }
    {
        // both are values, so that only what the change makes of them is tried
        match self {
            Change::Add(d) => amount.checked_add(d),
            Change::Take(d) => amount.checked_sub(d),
        }
        .filter(|left| left.is_value())
    }

    // Whether what the change makes of an amount is held.
    pub(crate) fn is_held(self, amount: K) -> bool
        requires amount { K.Amount.kind.value amount ≡ true }
        requires change { K.Amount.kind.value (amount_of self) ≡ true }
        ensures { result ≡ K.Amount.kind.held (changed K.Amount.kind self (K.Amount.kind.element amount)) }
    {
        self.of(amount).is_some()
    }
}
