// How a run ended: with a plan, blocked by members who together weigh more than all who may receive from
// them, or at a step that would leave an amount that is not held. Each with the steps that were done; the
// set of members has bit j - 1 for member j.
#[derive(Clone, Copy, PartialEq, Eq, Debug)]
pub enum Answer {
    Plan { steps: usize },
    Blocked { steps: usize, members: u64 },
    Outgrown { steps: usize },
}
