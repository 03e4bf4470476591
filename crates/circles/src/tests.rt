use crate::Circle;
use amounts::{Drift, Money};
use planner::Answer;
use refusals::Refusal;
use std::test::Fail;
use tables::Rates;

// the limit as it is stated, apart from the code that is tried
const TRILLION: u64 = 1_000_000_000_000;

const NO_DRIFT: Drift = Drift {
    weight: 0,
    change: 0,
};

fn rates(odds: u32, change: i32) -> Rates {
    Rates { odds, change }
}

// The outlook of a circle, which leaves its transfers.
fn outlook(circle: &Circle, transfers: &mut [Drift]) -> Result<Answer, Refusal> {
    let mut to_give = [NO_DRIFT; 64];
    let mut to_get = [NO_DRIFT; 64];
    circle.outlook(transfers, &mut to_give, &mut to_get)
}

// Two members of 200 cents at odds of 10,000 millionths, falling by 100 a year: both weigh 2,000,000.
fn two() -> Result<Circle, Refusal> {
    let mut circle = Circle::new(7);
    circle.admit(200, rates(10_000, -100))?;
    circle.admit(200, rates(10_000, -100))?;
    Ok(circle)
}

#[test]
fn members_are_numbered_from_one(rt: HostRuntime) {
    let mut circle = Circle::new(4_294_967_295);
    assert_eq!(rt; circle.admit(1, rates(1, 0)), Ok(1));
    assert_eq!(rt; circle.admit(5, rates(999_999, -999_998)), Ok(2));
    assert_eq!(rt; circle.admit(0, rates(1, 0)), Err(Refusal::Stake));
    assert_eq!(rt; circle.admit(6, rates(1, 999_998)), Ok(3));
    assert_eq!(rt; circle.number(), 4_294_967_295);
    assert_eq!(rt; circle.balance(1), Ok(1));
    assert_eq!(rt; circle.balance(3), Ok(6));
    assert_eq!(rt; circle.balance(0), Err(Refusal::NotAdmitted));
    assert_eq!(rt; circle.balance(4), Err(Refusal::NotAdmitted));
}

#[test]
fn rates_at_the_edges(rt: HostRuntime) {
    let mut circle = Circle::new(0);
    assert_eq!(rt; circle.admit(1, rates(0, 1)), Err(Refusal::Rates));
    assert_eq!(rt; circle.admit(1, rates(1_000_000, -1)), Err(Refusal::Rates));
    assert_eq!(rt; circle.admit(1, rates(1, -1)), Err(Refusal::Rates));
    assert_eq!(rt; circle.admit(1, rates(999_999, 1)), Err(Refusal::Rates));
    assert_eq!(rt; circle.admit(1, rates(999_999, 0)), Ok(1));
}

#[test]
fn total_of_exactly_its_limit(rt: HostRuntime) {
    let mut circle = Circle::new(0);
    assert_eq!(rt;
        circle.admit(TRILLION + 1, rates(1, 0)),
        Err(Refusal::Stake)
    );
    assert_eq!(rt; circle.admit(TRILLION - 1, rates(1, 0)), Ok(1));
    assert_eq!(rt; circle.admit(2, rates(1, 0)), Err(Refusal::TotalPassed));
    assert_eq!(rt; circle.admit(1, rates(1, 0)), Ok(2));
    assert_eq!(rt; circle.admit(1, rates(1, 0)), Err(Refusal::TotalPassed));
    // the input's refusals come before the state's
    assert_eq!(rt; circle.admit(0, rates(1, 0)), Err(Refusal::Stake));
    assert_eq!(rt; circle.admit(1, rates(0, 0)), Err(Refusal::Rates));
    assert_eq!(rt; circle.admit(0, rates(0, 0)), Err(Refusal::Stake));
}

#[test]
fn circle_of_sixty_four(rt: HostRuntime) -> Result<(), Fail> {
    let mut circle = Circle::new(0);
    // the same call so many times; nothing is indexed
    for _ in 0..64 {
        circle.admit(200, rates(10_000, 0))?;
    }
    assert_eq!(rt;
        circle.admit(200, rates(10_000, 0)),
        Err(Refusal::CircleFull)
    );
    assert_eq!(rt; circle.admit(0, rates(10_000, 0)), Err(Refusal::Stake));
    assert_eq!(rt; circle.admit(200, rates(0, 0)), Err(Refusal::Rates));
    assert_eq!(rt;
        circle.admit(TRILLION, rates(10_000, 0)),
        Err(Refusal::TotalPassed)
    );
    circle.bar(64, 1)?;
    assert_eq!(rt; circle.balance(64), Ok(200));
    assert_eq!(rt; circle.balance(65), Err(Refusal::NotAdmitted));
    assert_eq!(rt; circle.plan().is_ok(), true);
    Ok(())
}

#[test]
fn bars_refused(rt: HostRuntime) -> Result<(), Fail> {
    let mut circle = two()?;
    assert_eq!(rt; circle.bar(0, 1), Err(Refusal::NotAdmitted));
    assert_eq!(rt; circle.bar(1, 3), Err(Refusal::NotAdmitted));
    assert_eq!(rt; circle.bar(3, 3), Err(Refusal::NotAdmitted));
    assert_eq!(rt; circle.bar(2, 2), Err(Refusal::SameMember));
    assert_eq!(rt; circle.lift(3, 1), Err(Refusal::NotAdmitted));
    assert_eq!(rt; circle.lift(0, 0), Err(Refusal::NotAdmitted));
    assert_eq!(rt; circle.lift(1, 1), Err(Refusal::SameMember));
    assert_eq!(rt; circle.lift(1, 2), Ok(()));
    assert_eq!(rt; circle.bar(1, 2), Ok(()));
    assert_eq!(rt; circle.bar(1, 2), Ok(()));
    Ok(())
}

#[test]
fn plan_stands_until_a_call_voids_it(rt: HostRuntime) -> Result<(), Fail> {
    let mut circle = two()?;
    assert_eq!(rt; circle.transfer(1, 2), Ok(Money(0)));
    assert_eq!(rt; circle.plan(), Ok(Answer::Plan { steps: 2 }));
    assert_eq!(rt; circle.transfer(1, 2), Ok(Money(2_000_000)));
    assert_eq!(rt; circle.transfer(2, 1), Ok(Money(2_000_000)));
    assert_eq!(rt; circle.transfer(1, 1), Ok(Money(0)));
    assert_eq!(rt; circle.transfer(1, 3), Err(Refusal::NotAdmitted));
    // what is refused leaves the plan standing
    assert_eq!(rt; circle.admit(0, rates(1, 0)), Err(Refusal::Stake));
    assert_eq!(rt; circle.bar(1, 1), Err(Refusal::SameMember));
    assert_eq!(rt; circle.transfer(1, 2), Ok(Money(2_000_000)));
    // a lift that changes nothing voids it
    circle.lift(1, 2)?;
    assert_eq!(rt; circle.transfer(1, 2), Ok(Money(0)));
    circle.plan()?;
    circle.admit(1, rates(1, 0))?;
    assert_eq!(rt; circle.transfer(2, 1), Ok(Money(0)));
    Ok(())
}

#[test]
fn bar_blocks_and_lift_frees(rt: HostRuntime) -> Result<(), Fail> {
    let mut circle = two()?;
    circle.plan()?;
    circle.bar(1, 2)?;
    assert_eq!(rt; circle.transfer(2, 1), Ok(Money(0)));
    // member 1 may give to nobody, and member 2 gives all it has to 1
    assert_eq!(rt;
        circle.plan(),
        Ok(Answer::Blocked {
            steps: 1,
            members: 0b01,
        })
    );
    assert_eq!(rt; circle.transfer(2, 1), Ok(Money(0)));
    circle.lift(1, 2)?;
    assert_eq!(rt; circle.plan(), Ok(Answer::Plan { steps: 2 }));
    // the blocked plan of a heavier member voids the standing one
    circle.admit(500, rates(10_000, 0))?;
    assert_eq!(rt;
        circle.plan(),
        Ok(Answer::Blocked {
            steps: 4,
            members: 0b100,
        })
    );
    assert_eq!(rt; circle.transfer(3, 1), Ok(Money(0)));
    Ok(())
}

#[test]
fn nobody_to_plan_for(rt: HostRuntime) {
    let mut circle = Circle::new(0);
    let mut transfers = [NO_DRIFT; 4096];
    let mut to_get = [NO_DRIFT; 64];
    let mut short = [NO_DRIFT; 63];
    assert_eq!(rt; circle.plan(), Err(Refusal::NobodyAdmitted));
    assert_eq!(rt;
        outlook(&circle, &mut transfers),
        Err(Refusal::NobodyAdmitted)
    );
    assert_eq!(rt;
        circle.outlook(&mut transfers, &mut short, &mut to_get),
        Err(Refusal::Length)
    );
}

#[test]
fn outlook_in_the_callers_tables(rt: HostRuntime) -> Result<(), Fail> {
    let mut circle = two()?;
    circle.plan()?;
    let mut transfers = [NO_DRIFT; 4096];
    assert_eq!(rt;
        outlook(&circle, &mut transfers),
        Ok(Answer::Plan { steps: 2 })
    );
    // 200 cents times a change of -100
    let each = Drift {
        weight: 2_000_000,
        change: -20_000,
    };
    assert_eq!(rt; transfers[1], each);
    assert_eq!(rt; transfers[64], each);
    assert_eq!(rt; transfers[0], NO_DRIFT);
    // the circle's own plan stands as before
    assert_eq!(rt; circle.transfer(1, 2), Ok(Money(2_000_000)));
    Ok(())
}

#[test]
fn plan_that_does_not_last(rt: HostRuntime) -> Result<(), Fail> {
    let mut circle = Circle::new(0);
    circle.admit(200, rates(10_000, -100))?;
    circle.admit(200, rates(10_000, -50))?;
    assert_eq!(rt; circle.plan(), Ok(Answer::Plan { steps: 2 }));
    let mut transfers = [NO_DRIFT; 4096];
    // a moment later member 2 weighs more than member 1
    assert_eq!(rt;
        outlook(&circle, &mut transfers),
        Ok(Answer::Blocked {
            steps: 2,
            members: 0b10,
        })
    );
    Ok(())
}
