ghost use Rattle.std.specs.Prelude.{◌≡◌, None};
ghost use Rattle.circles.specs.Calls.{admit_refusal, admitted};
ghost use Rattle.circles.specs.Sound.{Sound};

use crate::member::Member;
use crate::state::State;
use tables::Rates;

impl State {
    // One member more; the standing plan is void.
    pub(crate) fn admit(&mut self, stake: u64, rates: Rates)
        requires sound { Sound self.old }
        requires fits { admit_refusal self.old.total self.old.members.count stake rates ≡ None }
        ensures after { self.new ≡ admitted self.old stake rates }
        ensures sound { Sound self.new }
    {
        self.members.join(Member::newcomer(stake, rates));
        self.total += stake;
        self.void();
    }
}
