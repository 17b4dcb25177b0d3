// Which refusal is answered where several fit.
#![tactic(auto)]

ghost use Rattle.judging.specs.Least.{JudgingStands};

// No two refusals share a number; and of tests in the order of their numbers, the first that holds is the least refusal that fits.
pub fn judging_stands()
    ensures { JudgingStands }
{}
