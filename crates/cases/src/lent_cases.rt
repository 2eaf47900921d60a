// Lent memory of every length, short and over-long, for each call: the answer, and what may not have been written.
use kinds::whole::{Whole, WholeCell};
use lines::page::Page;
use lines::reading::{MOST_NUMBERS, read_line};
use runs::run::run;
use runs::step::Step;
use sessions::session::{OUTPUT, Session};
use sheets::call::{Call, Success, number_of};
use sheets::sheet::{Sheet, check};

// A cell that no sheet writes.
const MARK: WholeCell = WholeCell { value: 77 };

// A sheet of two unknowns needs 15 cells. With fewer it is one of no unknowns, and no cell is written; with more, those
// behind the fifteenth keep what they held.
fn opens_in(len: usize) -> bool {
    let mut cells = [MARK; 20];
    let lent = &mut cells[..len.min(20)];
    let told = check::<Whole>(2, 9, lent).map_err(|fault| fault.number());
    let mut sheet = Sheet::<Whole>::open(lent, 2, 9);
    let posted = sheet.post(&[3, 5, 1]).map_err(|fault| fault.number());
    let moves = sheet.outline().moves();
    if len < 15 {
        return told == Err(13)
            && posted == Err(8)
            && moves == 0
            && cells.iter().all(|cell| *cell == MARK);
    }
    told == Ok(())
        && posted == Ok(Success::Done)
        && moves == 1
        && cells[15..].iter().all(|cell| *cell == MARK)
}

#[test]
fn cells_of_every_length(rt: HostRuntime) {
    assert!(rt; (0..21).all(|len| opens_in(len)));
}

// A sheet of two unknowns is taken up again in at least 15 cells; with fewer there is none. No cell is written.
fn resumes_in(len: usize) -> bool {
    let mut cells = [MARK; 20];
    let mut opened = Sheet::<Whole>::open(&mut cells, 2, 9);
    let posted = opened.post(&[3, 5, 1]);
    let outline = opened.outline();
    let before = cells;
    let mut plan = [7; 2];
    let mut sheet = Sheet::<Whole>::empty(&mut cells[..len.min(20)]);
    let resumed = sheet.resume(outline).map_err(|fault| fault.number());
    let picked = sheet.pick(&[2], &mut plan).map_err(|fault| fault.number());
    if posted != Ok(Success::Done) || cells != before {
        return false;
    }
    if len < 15 {
        return resumed == Err(13) && picked == Err(8) && plan == [7; 2];
    }
    resumed == Ok(()) && picked == Ok(()) && plan == [-13, 8]
}

#[test]
fn resuming_in_cells_of_every_length(rt: HostRuntime) {
    assert!(rt; (0..21).all(|len| resumes_in(len)));
}

// Words for another number of unknowns, a choice for another number of moves, and a plan of another length are refused
// by 9, and the plan's words are kept.
fn counts_are_tested(len: usize) -> bool {
    let mut cells = [MARK; 15];
    let words = [3, 5, 1, 3, 5, 1];
    let choice = [2, 2, 2, 2, 2, 2];
    let mut plan = [7; 6];
    let len = len.min(6);
    let mut sheet = Sheet::<Whole>::open(&mut cells, 2, 9);
    let posted = sheet.post(&words[..len]).map_err(|fault| fault.number());
    if sheet.outline().moves() == 2 {
        return len != 3 && posted == Err(9);
    }
    let long = sheet
        .pick(&choice[..len], &mut plan[..2])
        .map_err(|fault| fault.number());
    let short = sheet
        .pick(&choice[..1], &mut plan[..len])
        .map_err(|fault| fault.number());
    posted == Ok(Success::Done) && long == Err(9) && short == Err(9) && plan == [7; 6]
}

#[test]
fn words_of_every_length(rt: HostRuntime) {
    assert!(rt; (0..7).all(|len| counts_are_tested(len)));
}

// A picking of the choice (4, 6), with no page.
fn picking(words: &mut [i32]) -> Step<'_> {
    Step {
        call: Call::Pick(&[4, 6]),
        words,
        page: Page::new(Default::default()),
        answer: Ok(Success::Implied),
    }
}

// Three pickings in one run, each into words of its own.
#[test]
fn words_of_each_picking_in_a_run(rt: HostRuntime) {
    let mut cells = [MARK; 15];
    let mut short = [7; 1];
    let mut exact = [7; 2];
    let mut long = [7; 3];
    let steps: &mut [Step] = &mut [picking(&mut short), picking(&mut exact), picking(&mut long)];
    run::<Whole>(&mut cells, 2, 9, steps);
    assert_eq!(rt; number_of(steps[0].answer), 9);
    assert_eq!(rt; number_of(steps[1].answer), 0);
    assert_eq!(rt; number_of(steps[2].answer), 9);
    assert!(rt; short == [7] && exact == [4, 6] && long == [7; 3]);
}

// A new sheet of two unknowns is shown in three lines of 21 bytes. A page with less room is kept, byte for byte.
fn shows_on(len: usize) -> bool {
    let mut cells = [MARK; 15];
    let mut bytes = [0xAAu8; 70];
    let sheet = Sheet::<Whole>::open(&mut cells, 2, 9);
    let mut page = Page::new(&mut bytes[..len.min(70)]);
    let shown = sheet.show(&mut page).map_err(|fault| fault.number());
    let end = page.end();
    if len < 63 {
        return shown == Err(2) && end == 0 && bytes.iter().all(|byte| *byte == 0xAA);
    }
    shown == Ok(()) && end == 63 && bytes[63..].iter().all(|byte| *byte == 0xAA)
}

#[test]
fn pages_of_every_length(rt: HostRuntime) {
    assert!(rt; (0..71).all(|len| shows_on(len)));
}

// With fewer than 25 words a line is not read, and all words are kept.
fn reads_into(len: usize) -> bool {
    let mut words = [7; 30];
    let read = read_line(b"020200000001FFFFFFFF", &[0x02], &mut words[..len.min(30)])
        .map(|line| line.count)
        .map_err(|fault| fault.number());
    if len < MOST_NUMBERS {
        return read == Err(2) && words.iter().all(|word| *word == 7);
    }
    read == Ok(2) && words[..2] == [1, -1] && words[2..].iter().all(|word| *word == 7)
}

#[test]
fn line_words_of_every_length(rt: HostRuntime) {
    assert!(rt; (0..31).all(|len| reads_into(len)));
}

// A session wants 4,954 bytes and 25 words. With less, nothing is written; with more, what is behind is kept.
fn answers_into(len: usize, count: usize) -> bool {
    let mut session = Session::new();
    let mut out = [0xAAu8; 4960];
    let mut words = [7i32; 30];
    let told = session
        .call(
            1,
            b"0103000000000000000200000001",
            &mut out[..len.min(4960)],
            &mut words[..count.min(30)],
        )
        .map_err(|fault| fault.number());
    if len < OUTPUT || count < MOST_NUMBERS {
        return told == Err(2)
            && out.iter().all(|byte| *byte == 0xAA)
            && words.iter().all(|word| *word == 7);
    }
    let behind = out.strip_prefix(b"81030000000100000000FFFFFFFF\n");
    told == Ok(29)
        && behind.is_some_and(|bytes| bytes.iter().all(|byte| *byte == 0xAA))
        && words[..25].iter().all(|word| *word == 0)
        && words[25..].iter().all(|word| *word == 7)
}

#[test]
fn outputs_of_every_length(rt: HostRuntime) {
    assert!(rt;
        [0, 1, 28, 29, 4953, 4954, 4955, 4960]
            .iter()
            .all(|len| answers_into(*len, 25))
    );
    assert!(rt; (0..31).all(|count| answers_into(4954, count)));
}
