ghost use Rattle.std.specs.Prelude.{◌≡◌, ◌<◌, true, if◌then◌else◌, is_ok};
ghost use Rattle.flow.specs.Routes.{bump};
ghost use Rattle.planner.specs.Along.{links, least_on, fits_on, held_on, writable_on, moved_on, stepped_on};
ghost use Rattle.planner.specs.Changes.{amount_of, by, changed};
ghost use Rattle.planner.specs.Hops.{Among};
ghost use Rattle.planner.specs.Same.{Same, state};
ghost use Rattle.planner.specs.Tables.{table};

use crate::change::Change;
use crate::checks::MEMBERS;
use crate::tables::Tables;
use crate::way::Way;
use amounts::{Amount, lesser};

// A step that would leave an amount that is not held.
#[derive(Clone, Copy)]
pub(crate) struct NotHeld;

impl<K: Amount> Tables<'_, K> {
    // The least amount on a way: what its giver has to give, what its receiver has to get, and every transfer
    // that would be taken back.
    fn least(&self, way: &Way) -> K
        requires { Among self.now.words way.now }
        ensures value { K.Amount.kind.value result ≡ true }
        ensures least { K.Amount.kind.element result ≡ least_on self.now way.now }
    {
        let mut d = self.to_get[way.receiver];
        let mut hops = way.hops();
        // no `for`: where the walk ends is read afterwards
        while let Some(link) = hops.next() {
            d = lesser(self.transfers[MEMBERS * link.giver + link.receiver], d);
        }
        lesser(self.to_give[hops.giver], d)
    }

    // Whether d can be moved along a way: every amount that it would leave is held.
    fn fits(&self, way: &Way, d: K) -> bool
        requires way { Among self.now.words way.now }
        requires value { K.Amount.kind.value d ≡ true }
        ensures { result ≡ fits_on self.now way.now (K.Amount.kind.element d) }
    {
        // `&`, and no `&&`, which would be a path of its own for each test
        let mut fits = true;
        let mut i = way.receiver;
        let mut hops = way.hops();
        // no `for`: where the walk ends is read afterwards
        while let Some(link) = hops.next() {
            fits &= Change::Add(d).is_held(self.transfers[MEMBERS * link.giver + i]);
            fits &= Change::Take(d).is_held(self.transfers[MEMBERS * link.giver + link.receiver]);
            i = link.receiver;
        }
        let j = hops.giver;
        fits & Change::Add(d).is_held(self.transfers[MEMBERS * j + i])
            & Change::Take(d).is_held(self.to_give[j])
            & Change::Take(d).is_held(self.to_get[way.receiver])
    }

    // Changes the transfer from j to i.
    fn change(&mut self, j: usize, i: usize, change: Change<K>)
        requires giver { j < self.old.words.n }
        requires receiver { i < self.old.words.n }
        requires value { K.Amount.kind.value (amount_of change) ≡ true }
        requires room { K.Amount.kind.held (changed K.Amount.kind change (table K.Amount.kind self.old.transfers.now j i)) ≡ true }
        ensures same { Same self.old self.new }
        ensures done { table K.Amount.kind self.new.transfers.now ≡ bump K.Amount.kind.group (table K.Amount.kind self.old.transfers.now) j i (by K.Amount.kind change) }
        ensures gives { self.new.to_give.now ≡ self.old.to_give.now }
        ensures gets { self.new.to_get.now ≡ self.old.to_get.now }
        ensures givers { self.new.words.givers ≡ self.old.words.givers }
    {
        let left = change.of(self.transfers[MEMBERS * j + i]).unwrap();
        self.put_transfer(j, i, left);
    }

    // Moves d along a way, and answers the giver where the way starts.
    fn carry(&mut self, way: &Way, d: K) -> usize
        requires way { Among self.old.words way.now }
        requires value { K.Amount.kind.value d ≡ true }
        requires room { writable_on self.old way.now (K.Amount.kind.element d) ≡ true }
        ensures same { Same self.old self.new }
        ensures giver { (result < self.old.words.n) × (result ≡ (links self.old way.now).first) }
        ensures moved { table K.Amount.kind self.new.transfers.now ≡ moved_on self.old way.now (K.Amount.kind.element d) }
        ensures gives { self.new.to_give.now ≡ self.old.to_give.now }
        ensures gets { self.new.to_get.now ≡ self.old.to_get.now }
    {
        let mut i = way.receiver;
        let mut hops = way.hops();
        // no `for`: where the walk ends is read afterwards
        while let Some(link) = hops.next() {
            self.change(link.giver, i, Change::Add(d));
            self.change(link.giver, link.receiver, Change::Take(d));
            i = link.receiver;
        }
        self.change(hops.giver, i, Change::Add(d));
        hops.giver
    }

    // One step along the way that a search found: the least amount is moved along it. Where that would leave
    // an amount that is not held, nothing is written.
    pub(crate) fn step(&mut self, way: &Way) -> Result<(), NotHeld>
        requires way { Among self.old.words way.now }
        requires apart { writable_on self.old way.now (least_on self.old way.now) ≡ held_on self.old way.now (least_on self.old way.now) }
        ensures same { Same self.old self.new }
        ensures fits { is_ok result ≡ fits_on self.old way.now (least_on self.old way.now) }
        ensures done { state self.new ≡ (if is_ok result then stepped_on self.old way.now else state self.old) }
    {
        let d = self.least(way);
        if !self.fits(way, d) {
            return Err(NotHeld);
        }
        let j = self.carry(way, d);
        let left = Change::Take(d).of(self.to_give[j]).unwrap();
        self.put_give(j, left);
        let rest = Change::Take(d).of(self.to_get[way.receiver]).unwrap();
        self.put_get(way.receiver, rest);
        Ok(())
    }
}
