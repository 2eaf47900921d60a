// What is written of the calls: what each asked for, what it was lent, its answer, and what it left.
use crate::memory::{BYTE, Before, LINE, Request, WORD};
use decimal::{Equation, Row};
use sheets::call::{Answer, Call, Success, number_of};
use std::io;
use std::io::Write;

// The calls, whose words and bytes lie one behind another.
pub fn calls<W: Write>(
    out: &mut W,
    requests: &[Request],
    answers: &[Answer],
    words: &[i32],
    bytes: &[u8],
) -> io::Result<()> {
    let mut words = words;
    let mut bytes = bytes;
    for (i, (request, answer_given)) in requests.iter().zip(answers).enumerate() {
        let number = i.saturating_add(1);
        write!(out, "{number:>3}  ")?;
        asked(out, request)?;
        answer(out, *answer_given)?;
        let (own_words, other_words) = words.split_at(request.words.min(words.len()));
        let (own_bytes, other_bytes) = bytes.split_at(request.bytes.min(bytes.len()));
        left(out, request, own_words, own_bytes)?;
        words = other_words;
        bytes = other_bytes;
    }
    Ok(())
}

// What was asked, and what was lent for it.
fn asked<W: Write>(out: &mut W, request: &Request) -> io::Result<()> {
    match request.call {
        Call::Post(numbers) => {
            let equation = Equation(numbers);
            writeln!(out, "post {equation}")?;
        }
        Call::Clear => writeln!(out, "clear")?,
        Call::Pick(choice) => {
            let row = Row(choice);
            writeln!(out, "pick {row}")?;
        }
        Call::Show => writeln!(out, "show")?,
    }
    let words = request.words;
    let bytes = request.bytes;
    let before = match request.before {
        Before::Nothing => "",
        Before::LineBegun => ", a line begun",
        Before::LineClosed => ", a line closed",
    };
    writeln!(out, "       lent: words {words}, bytes {bytes}{before}")
}

// The answer in words, and its number.
fn answer<W: Write>(out: &mut W, answer: Answer) -> io::Result<()> {
    let number = number_of(answer);
    match answer {
        Ok(Success::Done) => writeln!(out, "       answer: done ({number})"),
        Ok(Success::Implied) => writeln!(out, "       answer: implied ({number})"),
        Err(fault) => writeln!(out, "       answer: refused, {fault} ({number})"),
    }
}

// What the call left in its memory: the plan in its words, and the lines on its page, where they are not as before.
fn left<W: Write>(out: &mut W, request: &Request, words: &[i32], bytes: &[u8]) -> io::Result<()> {
    let before = match request.before {
        Before::Nothing => &[],
        Before::LineBegun | Before::LineClosed => LINE,
    };
    let words_kept = words.iter().all(|word| *word == WORD);
    let bytes_kept = bytes
        .strip_prefix(before)
        .is_some_and(|rest| rest.iter().all(|byte| *byte == BYTE));
    if words_kept && bytes_kept {
        return writeln!(out, "       left: kept");
    }
    if !words_kept {
        let row = Row(words);
        writeln!(out, "       left: plan {row}")?;
    }
    if !bytes_kept {
        lines(out, bytes)?;
    }
    Ok(())
}

// Each line on a page.
fn lines<W: Write>(out: &mut W, bytes: &[u8]) -> io::Result<()> {
    let Ok(text) = str::from_utf8(bytes) else {
        return writeln!(out, "       left: no text");
    };
    for line in text.lines() {
        writeln!(out, "       left: line {line}")?;
    }
    Ok(())
}
