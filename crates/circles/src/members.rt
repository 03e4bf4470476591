ghost use Rattle.std.specs.Prelude.{◌≡◌, ℕ, ◌^◌, ◌<◌, length, slice_index};
ghost use Rattle.words.specs.Words.{bit};
ghost use Rattle.circles.specs.Members.{nobody, member_at, joined};
ghost use Rattle.circles.specs.Sound.{Manned};
ghost use Rattle.circles.specs.Tasks.{permits};

use crate::member::Member;
use planner::MEMBERS;
use std::array;
use tables::Rates;

// The members in the order of their admission; a place that nobody has is blank. It is a table with a count, and no Vec,
// since a circle has fixed memory and no heap.
#[derive(Drop)]
pub struct Members {
    pub list: [Member; MEMBERS],
    pub count: usize,
}

impl Members {
    pub(crate) fn none() -> Members
        ensures { result ≡ nobody }
    {
        let blank = Member {
            balance: 0,
            rates: Rates { odds: 0, change: 0 },
            alive: false,
            barred: 0,
        };
        Members {
            list: [blank; MEMBERS],
            count: 0,
        }
    }

    pub(crate) fn join(&mut self, member: Member)
        requires manned { Manned self.old }
        requires room { self.old.count < 64 }
        ensures { self.new ≡ joined self.old member }
    {
        self.list[self.count] = member;
        self.count += 1;
    }

    // The living, as a set.
    #[tactic(auto, using(words::proofs::Digits::bit_zero))]
    fn living(&self) -> u64
        requires { Manned self.now }
        ensures { (i : ℕ) → bit result i ≡ (member_at self.now i).alive }
    {
        let mut living = 0;
        for (k, member) in self.list.iter().enumerate() {
            living = words::put(living, k, member.alive);
        }
        living
    }

    // Who may receive from giver j, out of the living.
    #[tactic(auto, using(words::proofs::Digits::bit_zero))]
    fn permission(&self, living: u64, j: usize) -> u64
        requires manned { Manned self.now }
        requires giver { j < 64 }
        requires living { (i : ℕ) → bit living i ≡ (member_at self.now i).alive }
        ensures { (i : ℕ) → bit result i ≡ permits self.now j i }
    {
        if self.list[j].alive {
            words::without(words::except(living, self.list[j].barred), j)
        } else {
            0
        }
    }

    // Who may receive from whom: a permission word for each giver.
    pub(crate) fn permissions(&self) -> [u64; MEMBERS]
        requires { Manned self.now }
        ensures size { length result ≡ 64 }
        ensures small { (j : ℕ) → slice_index result j < 2 ^ 64 }
        ensures words { (j i : ℕ) → bit (slice_index result j) i ≡ permits self.now j i }
    {
        let living = self.living();
        array::from_fn(|j| self.permission(living, j))
    }
}
