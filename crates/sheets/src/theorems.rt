// Theorems about the laws of calls: what they accept, and that they refuse what is wrong.
ghost use Rattle.sheets.specs.OneAnswer.{OneAnswer};
ghost use Rattle.sheets.specs.SampleCalls.{CallSamples};
ghost use Rattle.sheets.specs.SampleSheets.{SampleSheets};

use kinds::kind::Kind;

// In every kind at most one answer to a call is right.
pub fn one_answer_right<K: Kind>()
    ensures { OneAnswer K.Kind.arith }
{}

// What the laws of single calls accept and refuse.
pub fn calls_accepted_and_refused()
    ensures { CallSamples }
{}

// The sample sheets follow from the definitions.
pub fn sample_sheets_stand()
    ensures { SampleSheets }
{}
