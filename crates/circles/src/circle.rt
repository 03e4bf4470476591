ghost use Rattle.std.specs.Prelude.{◌≡◌, ◌+◌, true, false, length, IfOk, Some, None, MatchResult};
ghost use Rattle.refusals.specs.Judged.{judged, left};
ghost use Rattle.circles.specs.Calls.{opened, admit_refusal, admitted, bar_refusal, barred, plan_refusal, outlook_refusal, balance_refusal, balance_told, transfer_refusal, transfer_told};
ghost use Rattle.circles.specs.Plans.{plan_answer, planned, PlanMeans, TransferMeans};
ghost use Rattle.circles.specs.Outlooks.{Foretells};
ghost use Rattle.circles.specs.Tasks.{drift_task};
ghost use Rattle.amounts.specs.Drifts.{drift};
ghost use Rattle.circles.specs.Answered.{Answered};
ghost use Rattle.planner.specs.Tables.{table};
ghost use Rattle.circles.specs.Sound.{Sound};

use crate::ask::ask;
use crate::refuse;
use crate::state::State;
use amounts::{Drift, Money};
use planner::{Answer, MEMBERS};
use refusals::Refusal;
use tables::Rates;

// A tontine circle: its members, who is barred from gaining by whose death, and possibly a standing plan.
// Members are numbered from 1 in the order of their admission.
#[derive(Drop)]
pub struct Circle {
    state: State,
    ghost sound: { Sound state },
}

impl Circle {
    // Opens a circle: no members, and every transfer zero.
    pub fn new(number: u32) -> Circle
        ensures { result.state ≡ opened number }
    {
        Circle {
            state: State::open(number),
        }
    }

    // The circle's number.
    pub fn number(&self) -> u32
        ensures { result ≡ self.now.state.number }
    {
        self.state.number
    }

    // Admits a member and answers its number; the standing plan is void.
    pub fn admit(&mut self, stake: u64, rates: Rates) -> Result<usize, Refusal>
        ensures answer { result ≡ judged (admit_refusal self.old.state.total self.old.state.members.count stake rates) (self.old.state.members.count + 1) }
        ensures after { self.new.state ≡ left (admit_refusal self.old.state.total self.old.state.members.count stake rates) self.old.state (admitted self.old.state stake rates) }
    {
        let members = self.state.members.count;
        refuse::admission(self.state.total, members, stake, rates)?;
        self.state.admit(stake, rates);
        Ok(members + 1)
    }

    // Puts a bar on the pair of giver and receiver, or takes it away; the standing plan is void.
    fn put_bar(&mut self, giver: usize, receiver: usize, on: bool) -> Result<(), Refusal>
        ensures answer { result ≡ judged (bar_refusal self.old.state.members.count giver receiver) tt }
        ensures after { self.new.state ≡ left (bar_refusal self.old.state.members.count giver receiver) self.old.state (barred self.old.state giver receiver on) }
    {
        let (j, i) = refuse::two(self.state.members.count, giver, receiver)?;
        self.state.put_bar(j, i, on);
        Ok(())
    }

    // Two public calls over the private one, since the rules have two: a reader sees which is meant, and no `true` or `false`.

    // Forbids the receiver to gain by the giver's death; the standing plan is void.
    pub fn bar(&mut self, giver: usize, receiver: usize) -> Result<(), Refusal>
        ensures answer { result ≡ judged (bar_refusal self.old.state.members.count giver receiver) tt }
        ensures after { self.new.state ≡ left (bar_refusal self.old.state.members.count giver receiver) self.old.state (barred self.old.state giver receiver true) }
    {
        self.put_bar(giver, receiver, true)
    }

    // Allows the receiver to gain by the giver's death; the standing plan is void.
    pub fn lift(&mut self, giver: usize, receiver: usize) -> Result<(), Refusal>
        ensures answer { result ≡ judged (bar_refusal self.old.state.members.count giver receiver) tt }
        ensures after { self.new.state ≡ left (bar_refusal self.old.state.members.count giver receiver) self.old.state (barred self.old.state giver receiver false) }
    {
        self.put_bar(giver, receiver, false)
    }

    // Looks for a fair plan of all admitted, by their balances, odds and bars of the moment. A plan stands from then
    // on; a blocked circle has none, and the answer names the members who block it.
    pub fn plan(&mut self) -> Result<Answer, Refusal>
        ensures answer { result ≡ judged (plan_refusal self.old.state.members.count) (plan_answer self.old.state.members) }
        ensures after { self.new.state ≡ left (plan_refusal self.old.state.members.count) self.old.state (planned self.old.state) }
        ensures means { IfOk result (λ a. PlanMeans self.old.state.members a self.new.state) }
    {
        refuse::plan(self.state.members.count)?;
        Ok(self.state.run_plan())
    }

    // Tells whether the circle stays plannable just after its date, by the weights with their yearly changes, and
    // leaves the plan's transfers, amounts still to give and amounts still to get in tables of the caller's, which are no
    // struct, since the planner takes them one by one too. The circle is not changed.
    #[tactic(auto, using(crate::proofs::Planning::foretold))]
    pub fn outlook(
        &self,
        transfers: &mut [Drift],
        to_give: &mut [Drift],
        to_get: &mut [Drift],
    ) -> Result<Answer, Refusal>
        ensures refused { MatchResult result (λ a. outlook_refusal self.now.state.members.count (length transfers.old) (length to_give.old) (length to_get.old) ≡ None) (λ e. (outlook_refusal self.now.state.members.count (length transfers.old) (length to_give.old) (length to_get.old) ≡ Some e) × (transfers.new ≡ transfers.old) × (to_give.new ≡ to_give.old) × (to_get.new ≡ to_get.old)) }
        ensures planned { IfOk result (λ a. Answered drift (drift_task self.now.state.members) a transfers.new to_give.new to_get.new) }
        ensures foretells { IfOk result (λ a. Foretells self.now.state.members a (table drift transfers.new)) }
    {
        refuse::outlook(
            self.state.members.count,
            transfers.len(),
            to_give.len(),
            to_get.len(),
        )?;
        Ok(ask(&self.state.members, transfers, to_give, to_get))
    }

    // The cents that a member has.
    pub fn balance(&self, member: usize) -> Result<u64, Refusal>
        ensures { result ≡ judged (balance_refusal self.now.state.members.count member) (balance_told self.now.state member) }
    {
        let k = refuse::member(self.state.members.count, member)?;
        Ok(self.state.members.list[k].balance)
    }

    // What the receiver expects to gain by the giver's death under the standing plan, in millionths of a cent.
    #[tactic(auto, using(crate::proofs::Planning::transfer_means))]
    pub fn transfer(&self, giver: usize, receiver: usize) -> Result<Money, Refusal>
        ensures answer { result ≡ judged (transfer_refusal self.now.state.members.count giver receiver) (transfer_told self.now.state giver receiver) }
        ensures means { IfOk result (TransferMeans self.now.state giver receiver) }
    {
        let (j, i) = refuse::pair(self.state.members.count, giver, receiver)?;
        Ok(self.state.transfers[MEMBERS * j + i])
    }
}
