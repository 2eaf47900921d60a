// What a line asks of the sheet that a session is on, for every kind alike. Faults have their place in the line.
// A line's numbers are few by a `requires`: posting and picking are public and take any words.
ghost use Rattle.std.specs.Prelude.{◌≡◌, ◌≤◌, length, Ok, OnOk, OnErr, IfOk, IfErr};
ghost use Rattle.lines.specs.Page.{model as page_model, with_text, HasRoom};
ghost use Rattle.sheets.specs.Calls.{sheet_call};
ghost use Rattle.sheets.specs.Cells.{needed};
ghost use Rattle.sheets.specs.Sheet.{model, model_of, checked, opened, most_unknowns};
ghost use Rattle.sessions.specs.Frames.{placed_result};
ghost use Rattle.sessions.specs.Requests.{rest_length, picked_text, answer_by, sheet_by, text_by, unplaced_answer, request_answer, request_left, request_text};

use crate::frame::{Request, placed_in_line};
use faults::SheetFault;
use kinds::kind::Kind;
use lines::page::Page;
use lines::reading::MOST_NUMBERS;
use lines::writing::write_line;
use sheets::call::{Answer, Call};
use sheets::shape::{MOST_UNKNOWNS, Outline};
use sheets::sheet::{Sheet, check};

// The frame of a picked plan.
const PICKED_PLAN: u8 = 0x82;

// Opens a new sheet, unless the check refuses.
pub(crate) fn open_on<K: Kind>(
    cells: &mut [K::Cell],
    unknowns: i32,
    list: i32,
) -> Result<Outline, SheetFault>
    ensures accepted { OnOk result (checked unknowns list (length cells.old) ≡ Ok tt) }
    ensures opened { IfOk result
        (λ outline. model_of cells.new outline ≡ opened K.Kind.arith unknowns list cells.old) }
    ensures refused { IfErr result
        (λ fault. placed_result (checked unknowns list (length cells.old)) ≡ Err fault) }
    ensures kept { OnErr result (cells.new ≡ cells.old) }
{
    check::<K>(unknowns, list, cells).map_err(placed_in_line)?;
    let sheet = Sheet::<K>::open(cells, unknowns, list);
    Ok(sheet.outline())
}

// Writes the line of a plan, where it was picked.
fn write_picked(page: &mut Page, answer: Answer, words: &[i32])
    requires few { length words.now ≤ most_unknowns }
    requires room { HasRoom (page_model page.old) rest_length }
    ensures held { page.new.bytes.ghost_name ≡ page.old.bytes.ghost_name }
    ensures model { page_model page.new ≡
        with_text (page_model page.old) (picked_text answer words.now) }
{
    if answer.is_ok() {
        write_line(page, PICKED_PLAN, words).unwrap();
    }
}

// Makes a call on memory of the session, and writes the lines behind its answer.
fn make_call<K: Kind>(sheet: &mut Sheet<K>, call: &Call, page: &mut Page) -> Answer
    requires { HasRoom (page_model page.old) rest_length }
    ensures held { sheet.new.cells.ghost_name ≡ sheet.old.cells.ghost_name }
    ensures page_held { page.new.bytes.ghost_name ≡ page.old.bytes.ghost_name }
    ensures answer { result ≡ answer_by K.Kind.arith (model sheet.old) (Ok (sheet_call call.now)) }
    ensures sheet { model sheet.new ≡
        sheet_by K.Kind.arith (model sheet.old) (Ok (sheet_call call.now)) }
    ensures page { page_model page.new ≡ with_text (page_model page.old)
        (text_by K.Kind.arith (model sheet.old) (Ok (sheet_call call.now))) }
{
    let mut plan = [0; MOST_UNKNOWNS];
    let words = &mut plan[..sheet.outline().unknowns()];
    let answer = sheet.make(call, words, page);
    if let Call::Pick(_) = call {
        write_picked(page, answer, words);
    }
    answer
}

// Makes the call that a request asks for, and writes the lines behind its answer.
fn ask<K: Kind>(sheet: &mut Sheet<K>, request: Request, numbers: &[i32], page: &mut Page) -> Answer
    requires { HasRoom (page_model page.old) rest_length }
    ensures held { sheet.new.cells.ghost_name ≡ sheet.old.cells.ghost_name }
    ensures page_held { page.new.bytes.ghost_name ≡ page.old.bytes.ghost_name }
    ensures answer { result ≡ unplaced_answer K.Kind.arith (model sheet.old) request numbers.now }
    ensures sheet { model sheet.new ≡
        request_left K.Kind.arith (model sheet.old) request numbers.now }
    ensures page { page_model page.new ≡ with_text (page_model page.old)
        (request_text K.Kind.arith (model sheet.old) request numbers.now) }
{
    if !sheet.stands() {
        return Err(SheetFault::NoSheet);
    }
    let call = request.call(numbers)?;
    make_call(sheet, &call, page)
}

// Takes a session's sheet up again in its cells, does what a line asks of it, and writes the lines behind its answer.
pub(crate) fn ask_on<K: Kind>(
    cells: &mut [K::Cell],
    outline: &mut Outline,
    request: Request,
    numbers: &[i32],
    page: &mut Page,
) -> Answer
    requires cells { needed most_unknowns ≤ length cells.old }
    requires few { length numbers.now ≤ MOST_NUMBERS }
    requires room { HasRoom (page_model page.old) rest_length }
    ensures held { page.new.bytes.ghost_name ≡ page.old.bytes.ghost_name }
    ensures answer { result ≡
        request_answer K.Kind.arith (model_of cells.old outline.old) request numbers.now }
    ensures left { model_of cells.new outline.new
        ≡ request_left K.Kind.arith (model_of cells.old outline.old) request numbers.now }
    ensures page { page_model page.new ≡ with_text (page_model page.old)
        (request_text K.Kind.arith (model_of cells.old outline.old) request numbers.now) }
{
    let mut sheet = Sheet::<K>::empty(cells);
    sheet.resume(*outline)?;
    let answer = ask(&mut sheet, request, numbers, page);
    *outline = sheet.outline();
    answer.map_err(placed_in_line)
}
