// Theorems about the promise: what it accepts, and that it refuses what is wrong.
ghost use Rattle.runs.specs.OneSolution.{OneSolution};
ghost use Rattle.runs.specs.SampleRuns.{RunSamples};

use kinds::kind::Kind;

// In every kind two sheets that keep the promise of the same calls make the same plans.
pub fn one_solution<K: Kind>()
    ensures { OneSolution K.Kind.arith }
{}

// What the promise accepts and refuses.
pub fn runs_accepted_and_refused()
    ensures { RunSamples }
{}
