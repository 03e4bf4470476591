ghost use Rattle.std.specs.Prelude.{◌≡◌, ◌<◌};
ghost use Rattle.circles.specs.Calls.{voided};
ghost use Rattle.circles.specs.Members.{bar_put};
ghost use Rattle.circles.specs.Sound.{Manned};

use crate::state::State;

impl State {
    // Puts a bar on the pair of giver j and receiver i, or takes it away; the standing plan is void.
    pub(crate) fn put_bar(&mut self, j: usize, i: usize, on: bool)
        requires manned { Manned self.old.members }
        requires giver { j < 64 }
        requires receiver { i < 64 }
        ensures { self.new ≡ voided self.old (bar_put self.old.members j i on) self.old.total }
    {
        self.members.list[j].put_bar(i, on);
        self.void();
    }
}
