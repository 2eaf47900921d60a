// Reading a line: its frame, and its numbers unpacked into lent words.
ghost use Rattle.std.specs.Prelude.{◌≡◌, ◌+◌, ◌<◌, ◌≤◌, ◌++◌, length, take, drop, IfSome, IfOk};
ghost use Rattle.std.specs.Result.{result_err};
ghost use Rattle.std.proofs.Props.{props};
ghost use Rattle.lines.specs.Hex.{Hex, number_of, word_of, find};
ghost use Rattle.lines.specs.Line.{most_numbers, line_length, is_lowest, line_text, frame_of, count_of, numbers, refusal, read_of, read_left};

use crate::hex::{first_no_digit, value, word};
use faults::{LineFault, NumberFault};

// As many numbers as a line may have.
pub const MOST_NUMBERS: usize = 25;

// How many bytes the shortest line has, which is a frame and a count.
pub const SHORTEST_LINE: usize = 4;

// How many bytes a line of that many numbers has.
pub const LONGEST_LINE: usize = 204;

// A line as it was read: its count stands beside the lent words, as the public `read_line` answers it.
#[derive(Clone, Copy)]
pub struct Line {
    pub frame: u8,
    // How many numbers it has.
    pub count: usize,
}

// Whether a number is -2147483648, which no line may have.
fn lowest(word: i32) -> bool
    ensures { result ≡ is_lowest word }
{
    word == i32::MIN
}

// The bytes of a line, each of which is a digit.
#[derive(Drop)]
struct Digits<'a> {
    bytes: &'a [u8],
    ghost hex: { Hex bytes.now } by { Prim.hlevel props },
}

impl Digits<'_> {
    // The byte that two digits write.
    fn byte(&self, at: usize) -> u8
        requires within { at + 2 ≤ length self.now.bytes.now }
        ensures { result ≡ number_of (take 2 (drop at self.now.bytes.now)) }
    {
        value(self.bytes[at]) * 16 + value(self.bytes[at + 1])
    }
}

// A line of digits that is as long as its count says.
#[derive(Drop)]
struct FullLine<'a> {
    digits: Digits<'a>,
    line: Line,
    ghost few: { line.count ≤ most_numbers },
    ghost frame: { line.frame ≡ frame_of digits.bytes.now },
    ghost count: { line.count ≡ count_of digits.bytes.now },
    ghost full: { length digits.bytes.now ≡ line_length line.count },
}

impl FullLine<'_> {
    // Number k.
    fn number(&self, k: usize) -> i32
        requires within { k < self.now.line.count }
        ensures { result ≡ word_of (take 8 (drop (line_length k) self.now.digits.bytes.now)) }
    {
        let digits = &self.digits.bytes[4 + 8 * k..];
        word(&digits[..8])
    }

    // The index of the first number that is -2147483648.
    fn first_lowest(&self) -> Option<usize>
        ensures value { result ≡ find is_lowest (numbers self.now.digits.bytes.now) }
        ensures bound { IfSome result (λ k. k < self.now.line.count) }
    {
        (0..self.line.count).find(|k| lowest(self.number(*k)))
    }

    // The numbers, into the first words.
    fn unpack(&self, words: &mut [i32])
        requires room { self.now.line.count ≤ length words.old }
        ensures { words.new
            ≡ numbers self.now.digits.bytes.now ++ drop self.now.line.count words.old }
    {
        for (k, word) in words[..self.line.count].iter_mut().enumerate() {
            *word = self.number(k);
        }
    }
}

// The line, or why it is refused.
#[tactic(auto, using(crate::proofs::Accepting::hex_from_find, crate::proofs::Finding::find_below))]
fn check_line<'a>(bytes: &'a [u8], known: &[u8]) -> Result<FullLine<'a>, LineFault>
    ensures fault { result_err result ≡ refusal known.now bytes.now }
    ensures bytes { IfOk result (λ full. full.digits.bytes.now ≡ bytes.now) }
{
    if bytes.len() < SHORTEST_LINE || bytes.len() > LONGEST_LINE {
        return Err(LineFault::Length);
    }
    if let Some(place) = first_no_digit(bytes) {
        return Err(LineFault::NoDigit(place as u8));
    }
    let digits = Digits { bytes };
    let count = digits.byte(2) as usize;
    if bytes.len() != 4 + 8 * count {
        return Err(LineFault::Size);
    }
    let frame = digits.byte(0);
    if !known.contains(&frame) {
        return Err(LineFault::Frame);
    }
    let full = FullLine {
        digits,
        line: Line { frame, count },
    };
    match full.first_lowest() {
        Some(k) => Err(LineFault::Number(NumberFault::Lowest, (4 + 8 * k) as u8)),
        None => Ok(full),
    }
}

// Reads a line whose frame is one of those known; frames stay numbers, since each caller knows its own. The line's
// numbers are the first words; the words beyond keep what they held, and all do where the line is refused. A line that
// is accepted would be written again byte for byte.
pub fn read_line(bytes: &[u8], known: &[u8], words: &mut [i32]) -> Result<Line, LineFault>
    ensures value { result ≡ read_of (length words.old) known.now bytes.now }
    ensures after { words.new ≡ read_left known.now bytes.now words.old }
    ensures again { IfOk result (λ line. line_text line.frame (numbers bytes.now) ≡ bytes.now) }
{
    if words.len() < MOST_NUMBERS {
        return Err(LineFault::FewWords);
    }
    let full = check_line(bytes, known)?;
    full.unpack(words);
    Ok(full.line)
}
