ghost use Rattle.std.specs.Prelude.{◌≡◌, ℕ, ◌<◌, ◌≤◌, true, None, slice_index};
ghost use Rattle.std.specs.Iterator.{at_most};
ghost use Rattle.words.specs.Words.{bit};
ghost use Rattle.planner.specs.Inside.{Inside, marks_of};

use crate::state::{Link, Marks};

// The way that a search found back from a receiver to a giver who has something to give. A way of one link has no marks.
#[derive(Clone, Copy)]
pub(crate) struct Way<'a> {
    pub(crate) marks: Option<&'a Marks>,
    pub(crate) last: usize,
    pub(crate) receiver: usize,
    pub(crate) members: usize,
    pub(crate) givers: u64,
    ghost size: { members ≤ 64 },
    ghost inside: { Inside members (marks_of marks).from (marks_of marks).via },
    ghost seen: { last < members },
    ghost ends: { receiver < members },
    ghost alone: { marks ≡ None → bit givers last ≡ true },
}

// A walk along a way, from its receiver back. Each link here is one whose transfer is taken back: from the
// giver where the walk stands to the receiver through whom the search came to that giver. Loops over a walk
// are `while let`, since the giver where it ends is read afterwards; of a `for` over `&mut hops`, which was tried, the
// proof loses what the walk keeps.
#[derive(Drop)]
pub(crate) struct Hops<'a> {
    way: Way<'a>,
    turns: usize,
    pub(crate) giver: usize,
    ghost inside: { giver < way.members },
    ghost alone: { way.marks ≡ None → bit way.givers giver ≡ true },
}

impl<'a> Way<'a> {
    ghost use Rattle.planner.specs.Hops.{Begins};

    // A walk that begins at the giver from whom the receiver was seen.
    pub(crate) fn hops(&self) -> Hops<'a>
        ensures { Begins self.now result }
    {
        Hops {
            way: *self,
            turns: self.members,
            giver: self.last,
        }
    }
}

impl Iterator for Hops<'_> {
    ghost use Rattle.planner.specs.Hops.{Gives};

    type Item = Link;

    ghost next_gives = { Gives };

    ghost remaining = { λ s. at_most s.turns };

    // The next link back, until a giver has something to give; a way has no more links than there are members.
    fn next(&mut self) -> Option<Link> {
        if self.turns == 0 || words::has(self.way.givers, self.giver) {
            return None;
        }
        let marks = self.way.marks?;
        let giver = self.giver;
        let receiver = usize::from(marks.via[giver]);
        self.turns -= 1;
        self.giver = usize::from(marks.from[receiver]);
        Some(Link { giver, receiver })
    }
}
