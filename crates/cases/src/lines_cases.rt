// Examples of lines and pages.
use lines::page::Page;
use lines::reading::{MOST_NUMBERS, read_line};
use lines::writing::write_line;

// The count of the line's numbers, or the refusal's number and place.
fn outcome(line: &[u8]) -> Result<usize, (u8, i32)> {
    let mut words = [0i32; MOST_NUMBERS];
    read_line(line, &[0x01, 0x02], &mut words)
        .map(|read| read.count)
        .map_err(|fault| (fault.number(), fault.place()))
}

#[test]
fn lines_are_refused_in_order(rt: HostRuntime) {
    assert_eq!(rt; outcome(b"0203000000030000000500000001"), Ok(3));
    assert_eq!(rt; outcome(b"020"), Err((3, -1)));
    assert_eq!(rt; outcome(b"02020000000100000z01"), Err((4, 17)));
    assert_eq!(rt; outcome(b"0z"), Err((3, -1)));
    assert_eq!(rt; outcome(b"0302"), Err((5, 2)));
    assert_eq!(rt; outcome(b"030180000000"), Err((6, 0)));
    assert_eq!(rt; outcome(b"02020000000180000000"), Err((7, 12)));
}

#[test]
fn few_words_are_refused_first(rt: HostRuntime) {
    let mut words = [7i32; 24];
    let fault = read_line(b"zz", &[0x02], &mut words).err();
    assert_eq!(rt; fault.map(|fault| fault.number()), Some(2));
    assert_eq!(rt; words[0], 7);
}

#[test]
fn a_line_is_written_at_the_end(rt: HostRuntime) {
    let mut bytes = [0xAAu8; 32];
    let mut page = Page::new(&mut bytes);
    let first = write_line(&mut page, 0x83, &[-3, 2]).is_ok();
    let second = write_line(&mut page, 0x84, &[5]).is_ok();
    let third = write_line(&mut page, 0x84, &[]).is_ok();
    let end = page.end();
    assert!(rt; first && !second && third && end == 26);
    assert!(rt; &bytes[..26] == b"8302FFFFFFFD00000002\n8400\n".as_slice() && bytes[26] == 0xAA);
}

// Begins a line for two numbers, puts one, and gives the line up; whether all of that was done.
// The two that are unreachable are kept: the check shows by them that a token's calls do not fail.
fn begun_and_given_up(page: &mut Page) -> bool {
    let Ok(token) = page.begin(0x82, 2) else {
        return false;
    };
    let put = match page.put(&token, 1) {
        Ok(()) => true,
        Err(_) => unreachable(),
    };
    match page.give_up(token) {
        Ok(()) => put,
        Err(_) => unreachable(),
    }
}

#[test]
fn a_line_given_up_is_zero(rt: HostRuntime) {
    let mut bytes = [0xAAu8; 24];
    let mut page = Page::new(&mut bytes);
    let done = begun_and_given_up(&mut page);
    let end = page.end();
    assert!(rt; done && end == 0);
    assert!(rt; bytes[0] == 0 && bytes[20] == 0 && bytes[21] == 0xAA);
}
