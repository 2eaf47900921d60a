// A session: its sheets' cells, which sheet it is on, and the call that answers one line.
ghost use Rattle.std.specs.Prelude.{◌≡◌, ◌≤◌, length, IfOk, None};
ghost use Rattle.lines.specs.Page.{model as page_model, with_text, HasRoom};
ghost use Rattle.sessions.specs.Law.{LineLaw};
ghost use Rattle.sessions.specs.Requests.{rest_length};
ghost use Rattle.sessions.specs.Session.{view, new_session, open_check, open_answer, open_left, frame_answer, frame_left, frame_text, line_answer, line_after, line_text_behind, answer_length, answer_text, memory_refusal, call_answer, out_left, words_left, view_left};
ghost use Rattle.sessions.specs.Wiped.{wiped};

use crate::frame::{Chosen, Frame, place_of};
use crate::sheet_calls::{ask_on, open_on};
use crate::unpacked::Unpacked;
use faults::{LineFault, PageFault, SheetFault};
use kinds::weekday::{Weekday, WeekdayCell};
use kinds::whole::{Whole, WholeCell};
use lines::page::Page;
use lines::reading::MOST_NUMBERS;
use lines::writing::write_line;
use sheets::call::{Answer, Success, number_of};
use sheets::shape::Outline;

/// As many cells of each kind as the largest sheet needs.
pub const CELLS: usize = 1225;

/// As many bytes as an answer line and the lines of the largest sheet have.
pub const OUTPUT: usize = 4954;

// As many bytes as an answer line has.
const ANSWER_LENGTH: usize = 29;

// The frame of an answer.
const ANSWER: u8 = 0x81;

// Where the modulus of an opening begins in its line.
const MODULUS_PLACE: u8 = 4;

// Which sheet a session is on; its cells are those of its kind.
#[derive(Clone, Copy)]
enum State {
    NoSheet,
    OnWhole(Outline),
    OnWeekday(Outline),
}

/// A session: which sheet it is on, and the cells of each kind.
#[derive(Drop)]
pub struct Session {
    state: State,
    whole: [WholeCell; CELLS],
    weekday: [WeekdayCell; CELLS],
}

impl Session {
    /// A session without a sheet.
    pub fn new() -> Session
        ensures { view result ≡ new_session }
    {
        Session {
            state: State::NoSheet,
            whole: [WholeCell { value: 0 }; CELLS],
            weekday: [WeekdayCell { value: 0 }; CELLS],
        }
    }

    // Opens a sheet: modulus, unknowns and list number. Refused, the session is kept.
    fn open(&mut self, words: &[i32]) -> Answer
        ensures answer { result ≡ open_answer (open_check (view self.old) words.now) }
        ensures left { view self.new ≡
            open_left (view self.old) (open_check (view self.old) words.now) words.now }
    {
        let [modulus, unknowns, list] = words else {
            return Err(SheetFault::Line(LineFault::Count));
        };
        let kind = Chosen::try_from(*modulus).map_err(|fault| LineFault::Number(
            fault,
            MODULUS_PLACE,
        ))?;
        self.state = match kind {
            Chosen::Whole => State::OnWhole(open_on::<Whole>(&mut self.whole, *unknowns, *list)?),
            Chosen::Weekday => {
                State::OnWeekday(open_on::<Weekday>(&mut self.weekday, *unknowns, *list)?)
            }
        };
        Ok(Success::Done)
    }

    // Does what a frame asks for, with its numbers, and writes the lines behind its answer.
    fn answer_frame(&mut self, frame: Frame, numbers: &[i32], page: &mut Page) -> Answer
        requires few { length numbers.now ≤ MOST_NUMBERS }
        requires room { HasRoom (page_model page.old) rest_length }
        ensures held { page.new.bytes.ghost_name ≡ page.old.bytes.ghost_name }
        ensures answer { result ≡ frame_answer (view self.old) frame numbers.now }
        ensures left { view self.new ≡ frame_left (view self.old) frame numbers.now }
        ensures page { page_model page.new ≡ with_text (page_model page.old)
            (frame_text (view self.old) frame numbers.now) }
    {
        match (&mut self.state, frame) {
            (_, Frame::Open) => self.open(numbers),
            (State::NoSheet, Frame::Ask(_)) => Err(SheetFault::NoSheet),
            (State::OnWhole(outline), Frame::Ask(request)) => {
                ask_on::<Whole>(&mut self.whole, outline, request, numbers, page)
            }
            (State::OnWeekday(outline), Frame::Ask(request)) => {
                ask_on::<Weekday>(&mut self.weekday, outline, request, numbers, page)
            }
        }
    }

    // Reads a line, does what it asks for, and writes the lines behind its answer. The words are zero again at the end,
    // on every way out.
    fn answer_line(&mut self, line: &[u8], words: &mut [i32], page: &mut Page) -> Answer
        requires enough { MOST_NUMBERS ≤ length words.old }
        requires room { HasRoom (page_model page.old) rest_length }
        ensures held { page.new.bytes.ghost_name ≡ page.old.bytes.ghost_name }
        ensures answer { result ≡ line_answer (view self.old) line.now }
        ensures left { view self.new ≡ line_after (view self.old) line.now }
        ensures words { words.new ≡ wiped words.old }
        ensures page { page_model page.new ≡ with_text (page_model page.old)
            (line_text_behind (view self.old) line.now) }
    {
        let mut unpacked = Unpacked::new(words);
        let frame = unpacked.read(line)?;
        self.answer_frame(frame, unpacked.numbers(), page)
    }

    /// Answers one line: the answer under frame 81, and behind it a picked plan (82) or all that the sheet shows (83 and
    /// 84), at the start of the output; how many bytes they have is given back. Where the output is under 4954 bytes, or
    /// the words under 25, nothing is written and nothing changes.
    pub fn call(
        &mut self,
        number: i32,
        line: &[u8],
        out: &mut [u8],
        words: &mut [i32],
    ) -> Result<usize, SheetFault>
        ensures value { result ≡ call_answer (view self.old) number line.now out.old words.old }
        ensures within { IfOk result (λ n. n ≤ length out.old) }
        ensures out { out.new ≡ out_left (view self.old) number line.now out.old words.old }
        ensures words { words.new ≡ words_left out.old words.old }
        ensures session { view self.new ≡ view_left (view self.old) line.now out.old words.old }
        ensures law { memory_refusal out.old words.old ≡ None →
            LineLaw (view self.old) line.now (line_answer (view self.old) line.now)
            (line_text_behind (view self.old) line.now) (view self.new) }
    {
        if out.len() < OUTPUT {
            return Err(SheetFault::Page(PageFault::NoRoom));
        }
        if words.len() < MOST_NUMBERS {
            return Err(SheetFault::Line(LineFault::FewWords));
        }
        let (head, rest) = out.split_at_mut(ANSWER_LENGTH);
        let mut page = Page::new(rest);
        let answer = self.answer_line(line, words, &mut page);
        write_answer(head, number, answer);
        Ok(ANSWER_LENGTH + page.end())
    }
}

// Writes the answer line over bytes that it fills.
fn write_answer(bytes: &mut [u8], number: i32, answer: Answer)
    requires exact { length bytes.old ≡ answer_length }
    ensures { bytes.new ≡ answer_text number answer }
{
    let mut page = Page::new(bytes);
    write_line(
        &mut page,
        ANSWER,
        &[number, number_of(answer) as i32, place_of(answer)],
    )
    .unwrap();
}
