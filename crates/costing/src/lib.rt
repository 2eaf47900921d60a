// The costing call: does a plan meet an equation, both given as lines?

#![tactic(auto)]

ghost use Rattle.std.specs.Prelude.{◌≡◌, ◌+◌, false, [], ◌∷◌, length, None, IfOk};
ghost use Rattle.std.specs.Result.{result_err};
ghost use Rattle.lines.specs.Hex.{find};
ghost use Rattle.lines.specs.Line.{is_lowest, numbers, refusal};
ghost use Rattle.costing.specs.Costing.{lines_balance, judgement, verdict, refusal_number, answer, Means};
ghost use Rattle.costing.specs.Samples.{Verdicts, NoWrong};

use faults::LineFault;
use kinds::kind::Kind;
use kinds::whole::Whole;
use lines::reading::{MOST_NUMBERS, read_line};

mod words;

// The frame of an equation's line.
pub const EQUATION: u8 = 0x02;

// The frame of a plan's line.
pub const PLAN: u8 = 0x82;

// Why there is no answer.
#[derive(Clone, Copy, Debug, PartialEq, Eq)]
pub enum Refusal {
    // The first line is refused.
    Equation(LineFault),
    // The second line is refused.
    Plan(LineFault),
    // The plan has not 1 to 24 numbers, or the equation not one more.
    Count,
    // A running sum leaves the whole kind.
    Overflow,
}

impl Refusal {
    // The number that a caller in C gets; several refusals have the same.
    pub fn number(self) -> u8
        ensures { result ≡ refusal_number self }
    {
        match self {
            Refusal::Equation(fault) | Refusal::Plan(fault) => fault.number(),
            Refusal::Count => 9,
            Refusal::Overflow => 15,
        }
    }
}

// The number of the whole kind that a word of a line means: no line has -2147483648.
fn whole(word: i32) -> Whole
    requires { is_lowest word ≡ false }
    ensures { result.value ≡ word }
{
    Whole::read(word).unwrap()
}

// The numbers of a line that was read, in lent words: no line has -2147483648.
#[derive(Drop)]
struct Numbers<'a> {
    words: &'a [i32],
    ghost stored: { find is_lowest words.now ≡ None },
}

// Reads a line of the frame that is wanted.
fn numbers_of<'a>(
    bytes: &[u8],
    frame: u8,
    words: &'a mut [i32; MOST_NUMBERS],
) -> Result<Numbers<'a>, LineFault>
    ensures fault { result_err result ≡ refusal (frame ∷ []) bytes.now }
    ensures words { IfOk result (λ line. line.words.now ≡ numbers bytes.now) }
{
    let line = read_line(bytes, &[frame], words)?;
    Ok(Numbers {
        words: &words[..line.count],
    })
}

// The sum of coefficient × entry less the right side, as a running sum in the whole kind; None where one leaves it.
fn balance(equation: &Numbers, plan: &Numbers) -> Option<Whole>
    requires { length equation.now.words.now ≡ length plan.now.words.now + 1 }
    ensures { result ≡ lines_balance equation.now.words.now plan.now.words.now }
{
    let n = plan.words.len();
    let mut sum = whole(equation.words[n]).negative();
    for (c, x) in equation.words[..n].iter().zip(plan.words) {
        sum = sum.add_product(whole(*c), whole(*x))?;
    }
    Some(sum)
}

// Whether the plan meets the equation, by the numbers of their lines. The equation's line has one more than the plan's,
// so a plan has under MOST_NUMBERS.
fn judge(equation: &Numbers, plan: &Numbers) -> Result<bool, Refusal>
    ensures { result ≡ judgement equation.now.words.now plan.now.words.now }
{
    let n = plan.words.len();
    if !(1..MOST_NUMBERS).contains(&n) || equation.words.len() != n + 1 {
        return Err(Refusal::Count);
    }
    let sum = balance(equation, plan).ok_or(Refusal::Overflow)?;
    Ok(sum.is_zero())
}

// Whether the plan of the second line meets the equation of the first, in whole numbers.
pub fn meets(equation: &[u8], plan: &[u8]) -> Result<bool, Refusal>
    ensures value { result ≡ verdict equation.now plan.now }
{
    // Arrays with room to spare: the memory is fixed, with no heap.
    let mut coefficients = [0; MOST_NUMBERS];
    let mut entries = [0; MOST_NUMBERS];
    let equation = numbers_of(equation, EQUATION, &mut coefficients).map_err(Refusal::Equation)?;
    let plan = numbers_of(plan, PLAN, &mut entries).map_err(Refusal::Plan)?;
    judge(&equation, &plan)
}

// The answer as one number, as a caller in C gets it.
fn answer_of(verdict: Result<bool, Refusal>) -> i32
    ensures { result ≡ answer verdict }
{
    match verdict {
        Ok(met) => i32::from(met),
        Err(refusal) => i32::from(refusal.number()),
    }
}

// The same as one number: 1 where the plan meets the equation, 0 where it does not, otherwise the refusal's. The crate
// costing_c exports it to C.
pub fn costing_meets(equation: &[u8], plan: &[u8]) -> i32
    ensures value { result ≡ answer (verdict equation.now plan.now) }
    ensures means { Means result equation.now plan.now }
{
    answer_of(meets(equation, plan))
}

// What the definitions come to on sample lines: the costing call's answers, as the table of the answers has them. No
// wrong answer means what an answer should.
pub fn samples_stand()
    ensures verdicts { Verdicts }
    ensures no_wrong { NoWrong }
{}
