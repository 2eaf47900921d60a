// The steps of a list, and the memory of which each is lent a part of its own.
ghost use Rattle.std.specs.Prelude.{◌≡◌};

use faults::SheetFault;
use lines::page::Page;
use runs::step::Step;
use sheets::call::{Answer, Call};
use std::mem;

// What stands in a step before its call is made.
const UNANSWERED: Answer = Err(SheetFault::NoSheet);

// What is not lent yet.
#[derive(Drop)]
pub struct Memory<'a> {
    pub words: &'a mut [i32],
    pub page: &'a mut [u8],
    // How many words each call is lent for a plan.
    pub count: usize,
}

// The first n of what is left, or all where less is left; the others are left.
fn cut<'a, T>(left: &mut &'a mut [T], n: usize) -> &'a mut [T] {
    let all = mem::take(left);
    let n = n.min(all.len());
    let (first, others) = all.split_at_mut(n);
    *left = others;
    first
}

impl<'a> Memory<'a> {
    // A step that is lent words for a plan and so many bytes of the page.
    fn step(&mut self, call: Call<'a>, bytes: usize) -> Step<'a>
        ensures { result.call ≡ call.entry }
    {
        Step {
            call,
            words: cut(&mut self.words, self.count),
            page: Page::new(cut(&mut self.page, bytes)),
            answer: UNANSWERED,
        }
    }

    // Posts the coefficients of an equation and its right side.
    pub fn post(&mut self, words: &'a [i32]) -> Step<'a> {
        self.step(Call::Post(words), 0)
    }

    pub fn clear(&mut self) -> Step<'a> {
        self.step(Call::Clear, 0)
    }

    pub fn pick(&mut self, choice: &'a [i32]) -> Step<'a> {
        self.step(Call::Pick(choice), 0)
    }

    pub fn show(&mut self, bytes: usize) -> Step<'a> {
        self.step(Call::Show, bytes)
    }
}
