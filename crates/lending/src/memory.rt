// What a call asks for, what is lent to it, and what stands there before.
use faults::SheetFault;
use lines::page::Page;
use lines::writing::write_line;
use runs::step::Step;
use sheets::call::{Answer, Call};
use std::mem;

// What lent words and bytes hold before, which no call of the list writes.
pub const WORD: i32 = 77;

pub const BYTE: u8 = b'.';

// The line that stands on a page before some calls: its frame, its number and its text.
pub const FRAME: u8 = 0x82;

pub const NUMBER: i32 = 7;

pub const LINE: &[u8] = b"820100000007\n";

// What stands in a step before its call is made.
pub const UNANSWERED: Answer = Err(SheetFault::NoSheet);

// What is on a page before the call.
#[derive(Clone, Copy, PartialEq, Eq)]
pub enum Before {
    Nothing,
    LineBegun,
    LineClosed,
}

// A call, how many words and bytes are lent to it, and what is on the page of these bytes.
#[derive(Clone, Copy)]
pub struct Request {
    pub call: Call<'static>,
    pub words: usize,
    pub bytes: usize,
    pub before: Before,
}

// What is not lent yet.
#[derive(Drop)]
pub struct Memory<'a> {
    pub words: &'a mut [i32],
    pub bytes: &'a mut [u8],
}

// The first n of what is left, or all where less is left; the others are left.
fn cut<'a, T>(left: &mut &'a mut [T], n: usize) -> &'a mut [T] {
    let all = mem::take(left);
    let n = n.min(all.len());
    let (first, others) = all.split_at_mut(n);
    *left = others;
    first
}

impl<'a> Memory<'a> {
    // The step of a request. A line that is to be begun on its page is not begun yet: its token has to be kept.
    pub fn step(&mut self, request: Request) -> Step<'a> {
        let mut page = Page::new(cut(&mut self.bytes, request.bytes));
        if request.before == Before::LineClosed {
            // A page that is too short for the line has none, and the output then lacks it.
            let _ = write_line(&mut page, FRAME, &[NUMBER]);
        }
        Step {
            call: request.call,
            words: cut(&mut self.words, request.words),
            page,
            answer: UNANSWERED,
        }
    }
}
