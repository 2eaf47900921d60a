// What is written of a pair of lines. By functions and not by `Display`: the lines are bytes, and the answer is another
// crate's.
use crate::unread::Unread;
use costing::{EQUATION, PLAN, costing_meets, meets};
use decimal::{Equation, Plan};
use lines::reading::{MOST_NUMBERS, read_line};
use std::io;
use std::io::Write;

// One pair: its lines, the answer's number and what it means.
pub fn pair<W: Write>(out: &mut W, line: u64, equation: &[u8], plan: &[u8]) -> io::Result<()> {
    let before = line.saturating_sub(1);
    writeln!(out, "lines {before} and {line}")?;
    equation_line(out, equation)?;
    plan_line(out, plan)?;
    let answer = costing_meets(equation, plan);
    write!(out, "  answer {answer}: ")?;
    match meets(equation, plan) {
        Ok(true) => writeln!(out, "the plan meets the equation"),
        Ok(false) => writeln!(out, "the plan does not meet the equation"),
        Err(refusal) => writeln!(out, "refused, {refusal}"),
    }
}

// An equation that has no plan behind it.
pub fn without_plan<W: Write>(out: &mut W, line: u64, equation: &[u8]) -> io::Result<()> {
    writeln!(out, "line {line}")?;
    equation_line(out, equation)?;
    writeln!(
        out,
        "  no answer: the input ends before the equation's plan"
    )
}

fn equation_line<W: Write>(out: &mut W, bytes: &[u8]) -> io::Result<()> {
    write!(out, "  equation: ")?;
    numbers(out, EQUATION, bytes, |out, words| {
        let equation = Equation(words);
        writeln!(out, "{equation}")
    })
}

fn plan_line<W: Write>(out: &mut W, bytes: &[u8]) -> io::Result<()> {
    write!(out, "  plan: ")?;
    numbers(out, PLAN, bytes, |out, words| {
        let plan = Plan(words);
        writeln!(out, "{plan}")
    })
}

// The numbers of a line as `show` writes them, or its bytes where it cannot be read. The array is fixed memory.
fn numbers<W: Write, F: FnOnce(&mut W, &[i32]) -> io::Result<()>>(
    out: &mut W,
    frame: u8,
    bytes: &[u8],
    show: F,
) -> io::Result<()>
    requires { F.IsAlwaysCallable show }
{
    let mut words = [0i32; MOST_NUMBERS];
    match read_line(bytes, &[frame], &mut words) {
        Ok(line) => show(out, &words[..line.count]),
        Err(_) => {
            let unread = Unread(bytes);
            writeln!(out, "{unread}")
        }
    }
}
