ghost use Rattle.std.specs.Prelude.{◌≡◌, ◌≤◌};
ghost use Rattle.circles.specs.Plans.{plan_answer, settled, planned, PlanMeans};
ghost use Rattle.circles.specs.Sound.{Sound};

use crate::ask::ask;
use crate::state::State;
use amounts::Money;
use planner::{Answer, MEMBERS};

impl State {
    // After a run has left its transfers in the table: a plan stands, and without one no plan stands.
    fn settle(&mut self, answer: Answer)
        ensures { self.new ≡ settled self.old answer }
    {
        match answer {
            Answer::Plan { .. } => self.standing = true,
            _ => self.void(),
        }
    }

    // Runs the general plan call on all admitted. A plan stands from then on; without one no plan stands.
    pub(crate) fn run_plan(&mut self) -> Answer
        requires sound { Sound self.old }
        requires some { 1 ≤ self.old.members.count }
        ensures answer { result ≡ plan_answer self.old.members }
        ensures after { self.new ≡ planned self.old }
        ensures means { PlanMeans self.old.members result self.new }
        ensures sound { Sound self.new }
    {
        let mut to_give = [Money(0); MEMBERS];
        let mut to_get = [Money(0); MEMBERS];
        let answer = ask(
            &self.members,
            &mut self.transfers,
            &mut to_give,
            &mut to_get,
        );
        self.settle(answer);
        answer
    }
}
