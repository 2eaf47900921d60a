// The costing call for C: the library costing's, under the same name and with the same contract.

#![tactic(auto)]

ghost use Rattle.std.specs.Prelude.{◌≡◌};
ghost use Rattle.costing.specs.Costing.{verdict, answer, Means};

// 1 where the plan meets the equation, 0 where it does not, otherwise the refusal's number.
#[unsafe(no_mangle)]
pub extern "C" fn costing_meets(equation: &[u8], plan: &[u8]) -> i32
    ensures value { result ≡ answer (verdict equation.now plan.now) }
    ensures means { Means result equation.now plan.now }
{
    costing::costing_meets(equation, plan)
}
