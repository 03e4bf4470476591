ghost use Rattle.std.specs.Prelude.{◌≡◌, ◌≤◌, length};
ghost use Rattle.circles.specs.Answered.{Answered};
ghost use Rattle.circles.specs.Members.{member_at};
ghost use Rattle.circles.specs.Sound.{Manned};
ghost use Rattle.circles.specs.Tasks.{posed_by};

use crate::members::Members;
use crate::weigh::{Weigh, weights};
use planner::Answer;

// Asks the general plan call about all admitted, by what they weigh in a kind of amount. It is never refused: the
// tables have their lengths, nobody may receive from itself, and every weight is a value. The three tables are no struct,
// since the outlook's and the planner's public calls take them one by one.
pub(crate) fn ask<K: Weigh>(
    members: &Members,
    transfers: &mut [K],
    to_give: &mut [K],
    to_get: &mut [K],
) -> Answer
    requires manned { Manned members.now }
    requires some { 1 ≤ members.now.count }
    requires transfers { length transfers.old ≡ 4096 }
    requires gives { length to_give.old ≡ 64 }
    requires gets { length to_get.old ≡ 64 }
    ensures { Answered K.kind (posed_by members.now (λ j. K.kind.element (K.weight (member_at members.now j)))) result transfers.new to_give.new to_get.new }
{
    let weights = weights(members);
    let permissions = members.permissions();
    planner::plan(
        members.count,
        &weights,
        &permissions,
        transfers,
        to_give,
        to_get,
    )
    .unwrap()
}
