// The list of calls, on a sheet of two unknowns in whole numbers.
ghost use Rattle.std.specs.Prelude.{◌≡◌, true};
ghost use Rattle.lines.specs.Page.{model};

use crate::memory::{Before, FRAME, Memory, NUMBER, Request, UNANSWERED};
use kinds::whole::{Whole, WholeCell};
use lines::page::{LineToken, Page};
use runs::run::run;
use runs::step::Step;
use sheets::call::{Answer, Call};

// How many calls there are, and how many words and bytes are lent to them in all.
pub const CALLS: usize = 14;

pub const WORDS: usize = 12;

pub const BYTES: usize = 414;

// As many cells as a sheet of 2 unknowns needs.
const NEEDED: usize = 15;

// Posts the coefficients of an equation and its right side.
fn post(numbers: &'static [i32], words: usize, bytes: usize) -> Request {
    Request {
        call: Call::Post(numbers),
        words,
        bytes,
        before: Before::Nothing,
    }
}

fn clear() -> Request {
    Request {
        call: Call::Clear,
        words: 0,
        bytes: 0,
        before: Before::Nothing,
    }
}

fn pick(choice: &'static [i32], words: usize) -> Request {
    Request {
        call: Call::Pick(choice),
        words,
        bytes: 0,
        before: Before::Nothing,
    }
}

fn show(bytes: usize, before: Before) -> Request {
    Request {
        call: Call::Show,
        words: 0,
        bytes,
        before,
    }
}

// A new sheet is shown in three lines of 21 bytes, and behind the posting in two; the line before them has 13.
pub fn requests() -> [Request; CALLS] {
    [
        show(76, Before::LineBegun),
        show(62, Before::Nothing),
        show(63, Before::Nothing),
        post(&[3, 5, 1], 2, 21),
        pick(&[2], 1),
        pick(&[2], 2),
        pick(&[2], 3),
        pick(&[2, 4], 2),
        show(41, Before::Nothing),
        show(42, Before::Nothing),
        show(54, Before::LineClosed),
        show(55, Before::LineClosed),
        clear(),
        pick(&[4, 6], 2),
    ]
}

// Puts the number of the line that is begun on the page, and closes it.
fn end_line(page: &mut Page, token: LineToken)
    requires { (model page.old).begun ≡ true }
{
    let _ = page.put(&token, NUMBER);
    match page.close(token) {
        Ok(()) => {}
        Err(_) => unreachable(),
    }
}

// The answers to the requests. The line on the first page is begun before the run and ended behind it, since no call
// ends a begun line.
pub fn answers(
    requests: &[Request; CALLS],
    words: &mut [i32; WORDS],
    bytes: &mut [u8; BYTES],
) -> [Answer; CALLS] {
    let mut answers = [UNANSWERED; CALLS];
    let mut cells = [WholeCell { value: 0 }; NEEDED];
    let mut lent = Memory { words, bytes };
    let mut begun = lent.step(requests[0]);
    let Ok(token) = begun.page.begin(FRAME, 1) else {
        return answers;
    };
    let steps: &mut [Step] = &mut [
        begun,
        lent.step(requests[1]),
        lent.step(requests[2]),
        lent.step(requests[3]),
        lent.step(requests[4]),
        lent.step(requests[5]),
        lent.step(requests[6]),
        lent.step(requests[7]),
        lent.step(requests[8]),
        lent.step(requests[9]),
        lent.step(requests[10]),
        lent.step(requests[11]),
        lent.step(requests[12]),
        lent.step(requests[13]),
    ];
    run::<Whole>(&mut cells, 2, 9, steps);
    end_line(&mut steps[0].page, token);
    for (i, step) in steps.iter().enumerate() {
        answers[i] = step.answer;
    }
    answers
}
