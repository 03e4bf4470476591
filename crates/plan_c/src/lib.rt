// The plan call for money, for C and Rust to link. A slice is passed as a pointer and then a length.
#![tactic(auto)]

ghost use Rattle.plan_c.specs.Numbers.{Called};

mod told;

use amounts::Money;
use planner::plan;
use told::Told;

// The plan call for money, with the answer in numbers. Its parameters are those that C passes.
#[unsafe(no_mangle)]
pub extern "C" fn plan_money(
    n: usize,
    weights: &[Money],
    permissions: &[u64],
    transfers: &mut [Money],
    to_give: &mut [Money],
    to_get: &mut [Money],
) -> Told
    ensures called { Called n weights.now permissions.now transfers.old to_give.old to_get.old transfers.new to_give.new to_get.new result }
{
    plan(n, weights, permissions, transfers, to_give, to_get).into()
}
