// The lists of calls, each on a sheet from its opening on.
use crate::memory::Memory;
use crate::walk::{Named, Opening, PAGE, walk};
use kinds::weekday::{Weekday, WeekdayCell};
use kinds::whole::{Whole, WholeCell};
use std::io;
use std::io::Write;

// Too few bytes to show any sheet of 3 unknowns, and what they leave of the page: enough for 3 rows of 3 numbers, and
// not for 4.
const SHORT: usize = 13;

const REST: usize = PAGE - SHORT;

// As many words as 22 calls are lent, 3 each.
const WORDS: usize = 66;

// On a sheet of 3 unknowns in whole numbers.
pub fn wholes<W: Write>(out: &mut W, opening: Opening, cells: &mut [WholeCell]) -> io::Result<()> {
    let mut words = [0; WORDS];
    let mut page = [0; PAGE];
    let mut lent = Memory {
        words: &mut words,
        page: &mut page,
        count: opening.words,
    };
    let steps = &mut [
        lent.show(SHORT),
        lent.post(&[3, 5, 0, 1]),
        lent.post(&[6, 10, 0, 2]),
        lent.post(&[3, 5, 0, 2]),
        lent.post(&[3, 5, 1]),
        lent.post(&[3, 5, 0, -2147483648]),
        lent.show(REST),
        lent.pick(&[2]),
        lent.pick(&[2, 4]),
        lent.pick(&[2147483647, 0]),
        lent.post(&[0, 0, 2, 5]),
        lent.post(&[2147483647, 2147483647, 0, 1]),
        lent.post(&[1, 1, 1, 4]),
        lent.post(&[1, -1, 7, -1]),
        lent.show(0),
        lent.clear(),
        lent.post(&[3, 5, 0, 2]),
        lent.post(&[0, 0, 0, 0]),
        lent.post(&[0, 0, 0, 1]),
        lent.pick(&[1, -2]),
        lent.post(&[2, 4, -6, 8]),
        lent.pick(&[1, -2]),
    ];
    walk::<Whole, _>(out, opening, cells, steps)
}

// On a sheet of 3 unknowns in weekday numbers.
pub fn weekdays<W: Write>(
    out: &mut W,
    opening: Opening,
    cells: &mut [WeekdayCell],
) -> io::Result<()> {
    let mut words = [0; WORDS];
    let mut page = [0; PAGE];
    let mut lent = Memory {
        words: &mut words,
        page: &mut page,
        count: opening.words,
    };
    let steps = &mut [
        lent.show(SHORT),
        lent.post(&[3, 5, 0, 1]),
        lent.post(&[6, 3, 0, 2]),
        lent.post(&[3, 5, 0, 2]),
        lent.post(&[3, 5, 1]),
        lent.post(&[3, 5, 7, 1]),
        lent.post(&[3, 5, 0, -1]),
        lent.show(REST),
        lent.pick(&[2]),
        lent.pick(&[2, 7]),
        lent.pick(&[2, 4]),
        lent.post(&[0, 0, 2, 5]),
        lent.post(&[1, 1, 1, 4]),
        lent.pick(&[]),
        lent.post(&[6, 5, 4, 3]),
        lent.show(0),
        lent.clear(),
        lent.post(&[3, 5, 0, 2]),
        lent.post(&[0, 0, 0, 1]),
        lent.post(&[2, 4, 6, 1]),
        lent.pick(&[3]),
        lent.show(0),
    ];
    walk::<Weekday, _>(out, opening, cells, steps)
}

// One call of each sort, and a posting of no numbers.
pub fn few<K: Named, W: Write>(
    out: &mut W,
    opening: Opening,
    cells: &mut [K::Cell],
) -> io::Result<()> {
    let mut words = [0; WORDS];
    let mut page = [0; PAGE];
    let mut lent = Memory {
        words: &mut words,
        page: &mut page,
        count: opening.words,
    };
    let steps = &mut [
        lent.post(&[1, 2, 3, 4]),
        lent.pick(&[5, 6]),
        lent.show(PAGE),
        lent.clear(),
        lent.post(&[]),
    ];
    walk::<K, _>(out, opening, cells, steps)
}
