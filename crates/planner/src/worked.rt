ghost use Rattle.std.specs.Prelude.{◌≡◌, ◌+◌, length};
ghost use Rattle.planner.specs.Worked.{money_cases, drift_cases, WorkedRuns};

// How many runs were worked out by hand, each of which the definition of the run gives: its steps, its end
// and every transfer.
pub fn worked_runs() -> usize
    ensures count { result ≡ length money_cases + length drift_cases }
    ensures worked_out { WorkedRuns }
{
    proved_runs()
}

fn proved_runs() -> usize
    ensures count { result ≡ 7 }
    ensures worked_out { WorkedRuns }
{
    7
}
