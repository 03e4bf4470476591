ghost use Rattle.std.specs.Prelude.{◌≡◌, ◌<◌};
ghost use Rattle.circles.specs.Members.{newcomer, with_bar};

use tables::Rates;

// One member's record. The receivers who may not gain by the member's death are a set, receiver i at place i
// counted from 0.
#[derive(Clone, Copy)]
pub struct Member {
    pub balance: u64,
    pub rates: Rates,
    pub alive: bool,
    pub barred: u64,
}

impl Member {
    pub(crate) fn newcomer(stake: u64, rates: Rates) -> Member
        ensures { result ≡ newcomer stake rates }
    {
        Member {
            balance: stake,
            rates,
            alive: true,
            barred: 0,
        }
    }

    // Puts a bar on receiver i, or takes it away.
    pub(crate) fn put_bar(&mut self, i: usize, on: bool)
        requires { i < 64 }
        ensures { self.new ≡ with_bar self.old i on }
    {
        self.barred = words::put(self.barred, i, on);
    }
}
