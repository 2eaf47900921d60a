// The mathematics of a sheet: specs/ has what it holds and how a posting works; here stand the theorems.

#![tactic(auto)]

ghost use Rattle.kinds.specs.Weekday.{weekdays};
ghost use Rattle.kinds.specs.Whole.{wholes};
ghost use Rattle.plans.specs.Overflows.{OnlyProducts, NeverOverflows};
ghost use Rattle.plans.specs.Posting.{EnoughTurns};
ghost use Rattle.plans.specs.Promised.{NewGeneral, PostingExact};
ghost use Rattle.plans.specs.SampleSolutions.{SolutionSamples};

use kinds::kind::Kind;

// Some fixed plans and moves are the general solution, and others are not.
pub fn solutions_stand()
    ensures { SolutionSamples }
{}

// The rounds of a posting end, in every kind: their number is bounded by the sizes of the tops. And a posting overflows
// exactly where one of its add-products gives none.
pub fn rounds_end<K: Kind>()
    ensures turns { EnoughTurns K.arith }
    ensures products { OnlyProducts K.arith }
{}

// No posting of weekday numbers overflows, and some of whole numbers do.
pub fn overflowing_kinds()
    ensures weekdays { NeverOverflows weekdays }
    ensures wholes { ¬ NeverOverflows wholes }
{}

// A new sheet stands for no equation, in every kind: every plan is made, each by one choice.
pub fn new_sheet_general<K: Kind>()
    ensures { NewGeneral K.arith }
{}

// A posting to a sheet that stands for equations comes out right, in every kind: what it answers tells which plans meet
// the equation too, and one that is taken leaves a sheet that stands for it as well.
pub fn posting_exact<K: Kind>()
    ensures { PostingExact K.arith }
{}
