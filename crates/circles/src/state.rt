ghost use Rattle.std.specs.Prelude.{◌≡◌};
ghost use Rattle.circles.specs.Calls.{opened, voided};

use crate::members::Members;
use amounts::Money;
use planner::PAIRS;

// What a circle holds, as plain records and tables; the circle keeps them sound. The total is that of all stakes
// accepted. The transfer from giver j to receiver i, counted from 0, is at place 64 j + i.
// The flag stands beside the table, and no Option around it: the planner fills the table before it is known whether a plan stands.
// No ghost field here or in Members: definitions make both as plain records, which with proofs in them would say no
// more to a reader. What holds of them in every circle is one record each, Sound and Manned, and Circle carries it.
#[derive(Drop)]
pub struct State {
    pub number: u32,
    pub members: Members,
    pub total: u64,
    pub standing: bool,
    // a place for each pair, since there is no heap
    pub transfers: [Money; PAIRS],
}

impl State {
    pub(crate) fn open(number: u32) -> State
        ensures { result ≡ opened number }
    {
        State {
            number,
            members: Members::none(),
            total: 0,
            standing: false,
            transfers: [Money(0); PAIRS],
        }
    }

    // The standing plan is void, and every transfer zero.
    pub(crate) fn void(&mut self)
        ensures { self.new ≡ voided self.old self.old.members self.old.total }
    {
        self.standing = false;
        self.transfers = [Money(0); PAIRS];
    }
}
