// A call of a run, with the memory that is lent to it.
use lines::page::Page;
use sheets::call::{Answer, Call};

/// A call, the memory that is lent to it alone, and its answer. A picked plan goes into the words, and what is shown to
/// the page; whatever answer stands there before the run makes the call is written over.
#[derive(Drop)]
pub struct Step<'a> {
    pub call: Call<'a>,
    pub words: &'a mut [i32],
    pub page: Page<'a>,
    pub answer: Answer,
}
