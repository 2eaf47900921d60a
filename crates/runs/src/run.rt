// Running any list of calls on a sheet, from its opening on.
ghost use Rattle.std.specs.Prelude.{◌≡◌, map};
ghost use Rattle.sheets.specs.Calls.{sheet_call, answer_to, sheet_after, memory_after};
ghost use Rattle.sheets.specs.Law.{CallLaw};
ghost use Rattle.sheets.specs.Sheet.{model, model_of, opened};
ghost use Rattle.runs.specs.Promise.{Promise};
ghost use Rattle.runs.specs.Run.{memory_of, memory_names, calls_in, calls_lent, calls_made, run_of, sheet_left, CallsLaw};

use crate::step::Step;
use kinds::kind::Kind;
use sheets::shape::Outline;
use sheets::sheet::Sheet;

// Makes the call of a step, and puts its answer there.
fn make_step<K: Kind>(sheet: &mut Sheet<K>, step: &mut Step)
    ensures held { sheet.new.cells.ghost_name ≡ sheet.old.cells.ghost_name }
    ensures memory_held { memory_names step.new ≡ memory_names step.old }
    ensures call { step.new.call ≡ step.old.call }
    ensures answer { step.new.answer ≡ answer_to K.Kind.arith (model sheet.old)
        (memory_of step.old) (sheet_call step.old.call) }
    ensures memory { memory_of step.new ≡ memory_after K.Kind.arith (model sheet.old)
        (memory_of step.old) (sheet_call step.old.call) }
    ensures sheet { model sheet.new ≡
        sheet_after K.Kind.arith (model sheet.old) (sheet_call step.old.call) }
    ensures law { CallLaw K.Kind.arith (model sheet.old)
        (sheet_call step.old.call) (memory_of step.old)
        step.new.answer (model sheet.new) (memory_of step.new) }
{
    step.answer = sheet.make(&step.call, step.words, &mut step.page);
}

// Makes the calls of the steps, one after the other.
// By index: a loop over the steps themselves, which hold borrowed memory, gets no proof.
fn make_steps<K: Kind>(sheet: &mut Sheet<K>, steps: &mut [Step])
    ensures held { sheet.new.cells.ghost_name ≡ sheet.old.cells.ghost_name }
    ensures memory_held { map memory_names steps.new ≡ map memory_names steps.old }
    ensures calls { calls_in steps.new ≡ calls_in steps.old }
    ensures made { calls_made steps.old steps.new ≡
        run_of K.Kind.arith (model sheet.old) (calls_lent steps.old) }
    ensures sheet { model sheet.new ≡
        sheet_left K.Kind.arith (model sheet.old) (calls_in steps.old) }
    ensures law { CallsLaw K.Kind.arith (model sheet.old) (calls_lent steps.old) }
{
    for i in 0..steps.len() {
        make_step(sheet, &mut steps[i]);
    }
}

/// Opens a sheet over the cells and makes the calls of the steps on it, one after the other, each on the memory that it
/// brings. The cells then hold the sheet, and its outline is answered.
pub fn run<K: Kind>(cells: &mut [K::Cell], unknowns: i32, list: i32, steps: &mut [Step]) -> Outline
    ensures memory_held { map memory_names steps.new ≡ map memory_names steps.old }
    ensures calls { calls_in steps.new ≡ calls_in steps.old }
    ensures made { calls_made steps.old steps.new ≡
        run_of K.Kind.arith (opened K.Kind.arith unknowns list cells.old) (calls_lent steps.old) }
    ensures left { model_of cells.new result ≡
        sheet_left K.Kind.arith (opened K.Kind.arith unknowns list cells.old) (calls_in steps.old) }
    ensures promise { Promise K.Kind.arith (opened K.Kind.arith unknowns list cells.old)
        (calls_made steps.old steps.new) (model_of cells.new result) }
{
    let mut sheet = Sheet::<K>::open(cells, unknowns, list);
    make_steps(&mut sheet, steps);
    sheet.outline()
}
