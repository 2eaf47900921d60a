// The calls on a sheet, and its opening. Each is stated on the sheet's model, and keeps whose cells the sheet holds.
ghost use Rattle.std.specs.Prelude.{◌≡◌, List, [], length, ℤ, OnOk, None, FitsSigned};
ghost use Rattle.std.specs.Int.{w32};
ghost use Rattle.std.specs.List.{AllByRecursion};
ghost use Rattle.faults.specs.Refusing.{done_unless};
ghost use Rattle.lines.specs.Page.{Model as PageModel, model as page_model};
ghost use Rattle.plans.specs.Solution.{MakesPlan};
ghost use Rattle.sheets.specs.Answers.{plain_answer};
ghost use Rattle.sheets.specs.Calls.{sheet_call, posting, clearing, picking, showing, Memory, memory, answer_to, sheet_after, memory_after};
ghost use Rattle.sheets.specs.Clearing.{clear_answer, clear_left};
ghost use Rattle.sheets.specs.Law.{StandsFor, Sound, SpareZero, PostingRefused, CallLaw};
ghost use Rattle.sheets.specs.Picking.{pick_refusal, pick_answer, pick_left};
ghost use Rattle.sheets.specs.Sheet.{model, contents_of, outline_of, asked as asked_of, checked, opened, stands as stands_of, empty_sheet, resume_answer, resume_left, post_refusal, post_answer, post_left};
ghost use Rattle.sheets.specs.Showing.{show_answer, show_left};

use super::Sheet;
use crate::call::{Answer, Call, Success};
use crate::cells::needed_cells;
use crate::opening::lay_sheet;
use crate::posting::post_words;
use crate::shape::{MOST_UNKNOWNS, Outline, Shape};
use crate::words::check_words;
use faults::{NumberFault, SheetFault};
use kinds::kind::Kind;
use lines::page::Page;

// The number of unknowns and the list number that an opening asks for. Two parameters and no struct, as in `check` and
// `open`, which are public.
fn asked(unknowns: i32, list: i32, len: usize) -> Result<(usize, u16), SheetFault>
    ensures { result ≡ asked_of unknowns list len }
{
    if !(1..=MOST_UNKNOWNS as i32).contains(&unknowns) {
        return Err(SheetFault::Number(NumberFault::Unknowns));
    }
    let list = u16::try_from(list).map_err(|_| SheetFault::Number(NumberFault::ListNumber))?;
    let n = unknowns as usize;
    if len < needed_cells(n) {
        return Err(SheetFault::FewCells);
    }
    Ok((n, list))
}

// Whether a sheet can be opened, and if not, why.
pub fn check<K: Kind>(unknowns: i32, list: i32, cells: &[K::Cell]) -> Result<(), SheetFault>
    ensures { result ≡ checked unknowns list (length cells.now) }
{
    asked(unknowns, list, cells.len())?;
    Ok(())
}

impl<'a, K: Kind> Sheet<'a, K> {
    /// Opens a new sheet; one of no unknowns, with no cell written, where the check would refuse.
    pub fn open(cells: &'a mut [K::Cell], unknowns: i32, list: i32) -> Sheet<'a, K>
        ensures held { result.cells.ghost_name ≡ cells.entry.ghost_name }
        ensures model { model result ≡ opened K.Kind.arith unknowns list cells.old }
        ensures law { StandsFor K.Kind.arith (model result) [] }
        ensures sound { Sound K.Kind.arith (model result) }
        ensures spare { SpareZero K.Kind.arith (model result) }
    {
        let Ok((n, list)) = asked(unknowns, list, cells.len()) else {
            return Sheet::empty(cells);
        };
        let shape = lay_sheet::<K>(cells, n);
        Sheet { cells, shape, list }
    }

    /// A sheet of no unknowns; no cell is written.
    pub fn empty(cells: &'a mut [K::Cell]) -> Sheet<'a, K>
        ensures held { result.cells.ghost_name ≡ cells.entry.ghost_name }
        ensures model { model result ≡ empty_sheet cells.old }
    {
        let shape = Shape {
            unknowns: 0,
            moves: 0,
        };
        Sheet {
            cells,
            shape,
            list: 0,
        }
    }
}

impl<K: Kind> Sheet<'_, K> {
    /// Takes up again, in its cells, the sheet of an outline; no cell is written.
    pub fn resume(&mut self, outline: Outline) -> Result<(), SheetFault>
        ensures held { self.new.cells.ghost_name ≡ self.old.cells.ghost_name }
        ensures answer { result ≡ resume_answer (model self.old) outline }
        ensures left { model self.new ≡ resume_left (model self.old) outline }
    {
        let n = outline.shape.unknowns;
        if n != 0 && self.cells.len() < needed_cells(n) {
            return Err(SheetFault::FewCells);
        }
        self.shape = outline.shape;
        self.list = outline.list;
        Ok(())
    }

    // What the sheet is besides its cells.
    pub fn outline(&self) -> Outline
        ensures { result ≡ outline_of self.now }
    {
        let shape = self.shape;
        Outline {
            shape,
            list: self.list,
        }
    }

    /// Whether the sheet has unknowns: one that could not be opened has none.
    pub fn stands(&self) -> bool
        ensures { result ≡ stands_of (model self.now) }
    {
        self.shape.unknowns != 0
    }

    // Whether words can be posted, before any cell is touched.
    fn check_post(&self, words: &[i32]) -> Result<(), SheetFault>
        ensures fit { OnOk result (AllByRecursion (FitsSigned w32) words.now) }
        ensures value { result ≡
            done_unless (post_refusal K.Kind.arith (model self.now) words.now) }
    {
        if !self.stands() {
            return Err(SheetFault::NoSheet);
        }
        if words.len() != self.shape.unknowns + 1 {
            return Err(SheetFault::Count);
        }
        check_words::<K>(words)
    }

    /// Posts an equation: its coefficients, and then its right side.
    pub fn post(&mut self, words: &[i32]) -> Answer
        ensures held { self.new.cells.ghost_name ≡ self.old.cells.ghost_name }
        ensures answer { result ≡ post_answer K.Kind.arith (model self.old) words.now }
        ensures left { model self.new ≡ post_left K.Kind.arith (model self.old) words.now }
        ensures refusals { PostingRefused K.Kind.arith (model self.old).unknowns
            (contents_of K.Kind.arith (model self.old)) words.now result }
        ensures law { (lent : Memory) → CallLaw K.Kind.arith (model self.old)
            (posting words.now) lent result (model self.new) lent }
        ensures wiped { post_refusal K.Kind.arith (model self.old) words.now ≡ None →
            SpareZero K.Kind.arith (model self.new) }
    {
        self.check_post(words)?;
        let n = self.shape.unknowns;
        let moves = self.shape.moves;
        let answer = post_words::<K>(self.cells, self.shape, words);
        if let Ok(Success::Done) = answer {
            self.shape = Shape {
                unknowns: n,
                moves: moves - 1,
            };
        }
        answer
    }

    /// Clears the sheet: it is the new sheet again, cell by cell.
    pub fn clear(&mut self) -> Result<(), SheetFault>
        ensures held { self.new.cells.ghost_name ≡ self.old.cells.ghost_name }
        ensures answer { result ≡ clear_answer (model self.old) }
        ensures left { model self.new ≡ clear_left K.Kind.arith (model self.old) }
        ensures law { (lent : Memory) → CallLaw K.Kind.arith (model self.old)
            clearing lent (plain_answer result) (model self.new) lent }
    {
        if !self.stands() {
            return Err(SheetFault::NoSheet);
        }
        self.shape = lay_sheet::<K>(self.cells, self.shape.unknowns);
        Ok(())
    }

    // Whether a plan can be picked, before any sum is made: `len` words are lent for it.
    fn check_pick(&self, choice: &[i32], len: usize) -> Result<(), SheetFault>
        ensures fit { OnOk result (AllByRecursion (FitsSigned w32) choice.now) }
        ensures value { result ≡
            done_unless (pick_refusal K.Kind.arith (model self.now) choice.now len) }
    {
        if !self.stands() {
            return Err(SheetFault::NoSheet);
        }
        if choice.len() != self.shape.moves || len != self.shape.unknowns {
            return Err(SheetFault::Count);
        }
        check_words::<K>(choice)
    }

    // Picks the plan of a choice: a number for each move. The plan's words are written where the answer is no fault.
    pub fn pick(&self, choice: &[i32], plan: &mut [i32]) -> Result<(), SheetFault>
        ensures answer { result ≡ pick_answer K.Kind.arith (model self.now) choice.now plan.old }
        ensures left { plan.new ≡ pick_left K.Kind.arith (model self.now) choice.now plan.old }
        ensures made { OnOk result (MakesPlan K.Kind.arith
            (contents_of K.Kind.arith (model self.now)) choice.now plan.new) }
        ensures law { (page : PageModel) → CallLaw K.Kind.arith (model self.now)
            (picking choice.now) (memory plan.old page)
            (plain_answer result) (model self.now) (memory plan.new page) }
    {
        self.check_pick(choice, plan.len())?;
        let words = self.plan_words(choice).ok_or(SheetFault::Overflow)?;
        plan.copy_from_slice(&words[..self.shape.unknowns]);
        Ok(())
    }

    // Whether the sheet can be shown on a page.
    fn check_show(&self, page: &Page) -> Result<(), SheetFault>
        ensures { result ≡ show_answer (model self.now) (page_model page.now) }
    {
        let stands = self.stands();
        let len = if stands {
            (self.shape.moves + 1) * (5 + 8 * self.shape.unknowns)
        } else {
            0
        };
        if let Some(fault) = page.text_refusal(len) {
            return Err(fault.into());
        }
        if !stands {
            return Err(SheetFault::NoSheet);
        }
        Ok(())
    }

    /// Shows the fixed plan and the moves in order, a line each.
    pub fn show(&self, page: &mut Page) -> Result<(), SheetFault>
        ensures held { page.new.bytes.ghost_name ≡ page.old.bytes.ghost_name }
        ensures answer { result ≡ show_answer (model self.now) (page_model page.old) }
        ensures left { page_model page.new ≡
            show_left K.Kind.arith (model self.now) (page_model page.old) }
        ensures law { (words : List ℤ) → CallLaw K.Kind.arith (model self.now)
            showing (memory words (page_model page.old))
            (plain_answer result) (model self.now) (memory words (page_model page.new)) }
    {
        self.check_show(page)?;
        self.write_rows(page);
        Ok(())
    }

    /// Makes a call; a picked plan goes into the words, and what is shown to the page.
    pub fn make(&mut self, call: &Call, words: &mut [i32], page: &mut Page) -> Answer
        ensures held { self.new.cells.ghost_name ≡ self.old.cells.ghost_name }
        ensures page_held { page.new.bytes.ghost_name ≡ page.old.bytes.ghost_name }
        ensures answer { result ≡ answer_to K.Kind.arith (model self.old)
            (memory words.old (page_model page.old)) (sheet_call call.now) }
        ensures sheet { model self.new ≡
            sheet_after K.Kind.arith (model self.old) (sheet_call call.now) }
        ensures memory { memory words.new (page_model page.new) ≡
            memory_after K.Kind.arith (model self.old)
            (memory words.old (page_model page.old)) (sheet_call call.now) }
        ensures law { CallLaw K.Kind.arith (model self.old)
            (sheet_call call.now) (memory words.old (page_model page.old))
            result (model self.new) (memory words.new (page_model page.new)) }
    {
        match call {
            Call::Post(numbers) => self.post(numbers),
            Call::Clear => self.clear().map(|()| Success::Done),
            Call::Pick(choice) => self.pick(choice, words).map(|()| Success::Done),
            Call::Show => self.show(page).map(|()| Success::Done),
        }
    }
}
