ghost use Rattle.std.specs.Prelude.{◌≡◌, ℕ, ◌+◌, ◌<◌};
ghost use Rattle.groups.specs.Sums.{Le};
ghost use Rattle.flow.specs.Runs.{begin};
ghost use Rattle.planner.specs.declared.answer.Answer.TheVariants.{Blocked};
ghost use Rattle.planner.specs.Answers.{posed, Ran};
ghost use Rattle.planner.specs.Same.{Same, state};
ghost use Rattle.planner.specs.Tables.{row};

use crate::answer::Answer;
use crate::hunt::find;
use crate::state::Marks;
use crate::tables::Tables;
use amounts::Amount;

// The count of steps after one more; a run of 64 members has at most 258,176.
fn one_more(steps: usize) -> usize
    requires { steps < 258177 }
    ensures { result ≡ 1 + steps }
{
    steps + 1
}

// The answer of a search that ended nowhere: the givers whom it reached block the circle.
fn blocked(steps: usize, reached: u64) -> Answer
    ensures { result ≡ Blocked steps reached }
{
    Answer::Blocked {
        steps,
        members: reached,
    }
}

impl<K: Amount> Tables<'_, K> {
    // One step after another, until the search finds no way or a step is refused.
    pub(crate) fn run(&mut self) -> Answer
        requires begun { state self.old ≡ begin K.Amount.kind.group (posed K.Amount.kind self.old.words (row K.Amount.kind self.old.to_give.now)) }
        requires least { (j : ℕ) → j < self.old.words.n → Le K.Amount.kind.group K.Amount.kind.group.nil (row K.Amount.kind self.old.to_give.now j) }
        ensures same { Same self.old self.new }
        ensures ran { Ran K.Amount.kind (posed K.Amount.kind self.old.words (row K.Amount.kind self.old.to_give.now)) result self.new.transfers.now self.new.to_give.now self.new.to_get.now }
    {
        // Nothing is counted but the steps that are told: that they end is a bound on the run itself.
        let mut steps = 0;
        let mut marks = Marks::none();
        'turn: loop {
            let way = match find(&self.words, &mut marks) {
                Ok(way) => way,
                Err(_) if self.words.givers == 0 => return Answer::Plan { steps },
                Err(reached) => return blocked(steps, reached),
            };
            let Ok(()) = self.step(&way) else {
                return Answer::Outgrown { steps };
            };
            steps = one_more(steps);
        }
    }
}
