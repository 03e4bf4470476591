ghost use Rattle.std.specs.Prelude.{◌≡◌};
ghost use Rattle.plan_c.specs.Numbers.{numbers};

use planner::Answer;
use refusals::Refusal;

// What a plan call answers, in numbers: C, which calls it, has no enum with values in it.
#[repr(C)]
#[derive(Clone, Copy, PartialEq, Eq, Debug)]
pub struct Told {
    // 0, or the number of the refusal; all else is then zero
    pub refusal: u64,
    // 0 for plan, 1 for blocked, 2 for outgrown
    pub kind: u64,
    pub steps: u64,
    // the members who block, member k at place k; zero but for blocked
    pub members: u64,
}

// All numbers zero: a plan without steps.
const NOTHING: Told = Told {
    refusal: 0,
    kind: 0,
    steps: 0,
    members: 0,
};

// The steps are widened by `as`, since a usize has no From into a u64.
impl From<Result<Answer, Refusal>> for Told {
    ghost from_gives = { λ answer told. told ≡ numbers answer };

    fn from(answer: Result<Answer, Refusal>) -> Told {
        match answer {
            Ok(Answer::Plan { steps }) => Told {
                steps: steps as u64,
                ..NOTHING
            },
            Ok(Answer::Blocked { steps, members }) => Told {
                kind: 1,
                steps: steps as u64,
                members,
                ..NOTHING
            },
            Ok(Answer::Outgrown { steps }) => Told {
                kind: 2,
                steps: steps as u64,
                ..NOTHING
            },
            Err(refusal) => Told {
                refusal: u64::from(u8::from(refusal)),
                ..NOTHING
            },
        }
    }
}
