//! How logs come back to the inputs.

ghost use Rattle.std.specs.Prelude.{◌≡◌, ◌<◌, ◌≤◌, ◌+◌, ◌-◌, ◌^◌, ℕ, List, map, min};
ghost use Rattle.std.specs.List.{sum_by};
ghost use Rattle.ssq_outside.specs.Faults.{Rises};
ghost use Rattle.ssq_logs.specs.Went.{InputsWent, faults_with};

use ssq_outside::Inputs;

/// Gives each log back, the first one first. The inputs then count what the logs counted: where one failed, their count rose.
pub fn give_back<I: Inputs>(inputs: &mut I, logs: Vec<I::Log>)
    ensures inputs { InputsWent I.tells I.held I.returned I.available inputs.old inputs.new (map I.Log.answers logs.items) }
    ensures added { I.faults inputs.new ≡ faults_with (map I.Log.faults logs.items) (I.faults inputs.old) }
    ensures counted { min (I.faults inputs.old) (2 ^ 64 - 1) ≤ I.faults inputs.new }
    ensures risen { 0 < sum_by I.Log.faults logs.items → Rises (I.faults inputs.old) (I.faults inputs.new) }
{
    for log in logs {
        inputs.give_back(log);
    }
}
