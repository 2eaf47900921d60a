// What is written of the calls of a run, their answers and the picked plan. By functions and not by `Display`: the
// types are other crates'.
use decimal::{Equation, Row};
use runs::step::Step;
use sheets::call::{Call, Success, number_of};
use std::io;
use std::io::Write;

// Each step on a line.
pub fn steps<W: Write>(out: &mut W, steps: &[Step]) -> io::Result<()> {
    for (i, step) in steps.iter().enumerate() {
        let number = i.saturating_add(1);
        write!(out, "{number:>3}  ")?;
        call(out, &step.call)?;
        write!(out, ": ")?;
        answer(out, step)?;
    }
    Ok(())
}

// The plan that was picked last.
pub fn plan<W: Write>(out: &mut W, steps: &[Step]) -> io::Result<()> {
    match picked_last(steps) {
        Some(words) => {
            let row = Row(words);
            writeln!(out, "    picked plan: {row}")
        }
        None => writeln!(out, "    picked plan: none"),
    }
}

// The words of the last picking that was done.
fn picked_last<'a>(steps: &'a [Step]) -> Option<&'a [i32]> {
    let mut last = None;
    for step in steps {
        if let (Call::Pick(_), Ok(Success::Done)) = (&step.call, step.answer) {
            last = Some(&*step.words);
        }
    }
    last
}

// What was asked, in words: no `Display` of a call, which is another crate's type.
fn call<W: Write>(out: &mut W, call: &Call) -> io::Result<()> {
    match call {
        Call::Post(words) => {
            let equation = Equation(words);
            write!(out, "post {equation}")
        }
        Call::Clear => write!(out, "clear"),
        Call::Pick(choice) => {
            let row = Row(choice);
            write!(out, "pick {row}")
        }
        Call::Show => write!(out, "show"),
    }
}

// The answer in words, and its number: the word depends on the call too, so that no answer could print itself.
fn answer<W: Write>(out: &mut W, step: &Step) -> io::Result<()> {
    let number = number_of(step.answer);
    match step.answer {
        Ok(Success::Done) => {
            let done = done(&step.call);
            writeln!(out, "{done} ({number})")
        }
        Ok(Success::Implied) => writeln!(out, "implied ({number})"),
        Err(fault) => writeln!(out, "refused, {fault} ({number})"),
    }
}

// The word for a call that did what it was to do.
fn done(call: &Call) -> &'static str {
    match call {
        Call::Post(_) => "taken",
        _ => "done",
    }
}
