// Examples of sessions: lines in, and all that is written for them.
use std::alloc::Global;
use stream::answer_lines;

// Whether the lines are answered by exactly these bytes.
fn answers(alloc: Global, lines: &[u8], expected: &[u8]) -> bool {
    let mut input = lines;
    let mut written = Vec::new(alloc);
    answer_lines(&mut input, &mut written).is_ok() && written.as_slice() == expected
}

// The example of docs/session.md.
#[test]
fn a_sheet_is_opened_shown_picked_from_and_contradicted(rt: HostRuntime) {
    assert!(rt;
        answers(
            rt.alloc(),
            b"0103000000000000000200000001\n0203000000030000000500000001\n0500\n040100000002\n0203000000010000000100000004\n",
            b"81030000000100000000FFFFFFFF\n81030000000200000000FFFFFFFF\n81030000000300000000FFFFFFFF\n8302FFFFFFFD00000002\n8402FFFFFFFB00000003\n81030000000400000000FFFFFFFF\n8202FFFFFFF300000008\n81030000000500000010FFFFFFFF\n",
        )
    );
}

// A last line that lacks its line feed counts if it has a byte.
#[test]
fn a_last_line_needs_no_line_feed(rt: HostRuntime) {
    assert!(rt;
        answers(
            rt.alloc(),
            b"0103000000000000000100000000\n0500",
            b"81030000000100000000FFFFFFFF\n81030000000200000000FFFFFFFF\n830100000000\n840100000001\n",
        )
    );
    assert!(rt; answers(rt.alloc(), b"", b""));
}

// An output of 10 bytes has no room for an answer.
#[test]
fn a_full_output_is_an_error(rt: HostRuntime) {
    let mut input: &[u8] = b"0500\n";
    let mut bytes = [0u8; 10];
    let mut output: &mut [u8] = &mut bytes;
    assert!(rt; answer_lines(&mut input, &mut output).is_err());
}

// 3x + 5y = 1. Were a quotient rounded toward zero, the plan would be (2, -1); were the last move dropped in place of
// the pivot, the move would be (2, -1); a doubled move would be (-10, 6).
#[test]
fn a_sheet_shows_its_solution(rt: HostRuntime) {
    assert!(rt;
        answers(
            rt.alloc(),
            b"0103000000000000000200000001\n0203000000030000000500000001\n0500\n",
            b"81030000000100000000FFFFFFFF\n81030000000200000000FFFFFFFF\n81030000000300000000FFFFFFFF\n8302FFFFFFFD00000002\n8402FFFFFFFB00000003\n",
        )
    );
}

// Each equation alone has a plan; together they have none.
#[test]
fn equations_are_taken_together(rt: HostRuntime) {
    assert!(rt;
        answers(
            rt.alloc(),
            b"0103000000000000000200000001\n0203000000010000000100000000\n020300000001FFFFFFFF00000001\n",
            b"81030000000100000000FFFFFFFF\n81030000000200000000FFFFFFFF\n81030000000300000010FFFFFFFF\n",
        )
    );
}

// x - 2147483647 y = 0; then x + y = 0 overflows and changes nothing; then x = 0 is taken.
#[test]
fn an_overflow_leaves_the_sheet(rt: HostRuntime) {
    assert!(rt;
        answers(
            rt.alloc(),
            b"0103000000000000000200000001\n0203000000018000000100000000\n0203000000010000000100000000\n0500\n0203000000010000000000000000\n0500\n",
            b"81030000000100000000FFFFFFFF\n81030000000200000000FFFFFFFF\n8103000000030000000FFFFFFFFF\n81030000000400000000FFFFFFFF\n83020000000000000000\n840280000001FFFFFFFF\n81030000000500000000FFFFFFFF\n81030000000600000000FFFFFFFF\n83020000000000000000\n",
        )
    );
}

#[test]
fn a_weekday_sheet_works_in_remainders(rt: HostRuntime) {
    assert!(rt;
        answers(
            rt.alloc(),
            b"01030000000700000002000000FF\n0203000000030000000500000001\n0500\n0203000000070000000000000000\n",
            b"81030000000100000000FFFFFFFF\n81030000000200000000FFFFFFFF\n81030000000300000000FFFFFFFF\n83020000000500000000\n84020000000500000004\n8103000000040000000E00000004\n",
        )
    );
}

// No sheet, no modulus, no unknowns, no list, a wrong count, a frame that is unknown; and then a sheet after all.
#[test]
fn refusals_keep_the_session(rt: HostRuntime) {
    assert!(rt;
        answers(
            rt.alloc(),
            b"0500\n0103000000060000000200000001\n0103000000000000001900000001\n0103000000000000000200010000\n010200000000FFFFFFFF\n0103000000000000000100000000\n02010000000A\n0600\n0103000000000000000080000000\n0500\n",
            b"81030000000100000008FFFFFFFF\n8103000000020000000A00000004\n8103000000030000000B0000000C\n8103000000040000000C00000014\n8103000000050000000900000002\n81030000000600000000FFFFFFFF\n8103000000070000000900000002\n8103000000080000000600000000\n8103000000090000000700000014\n81030000000A00000000FFFFFFFF\n830100000000\n840100000001\n",
        )
    );
}

// A choice picks a plan; a clearing makes the sheet new again; neither line may have another count.
#[test]
fn a_sheet_is_picked_from_and_cleared(rt: HostRuntime) {
    assert!(rt;
        answers(
            rt.alloc(),
            b"0103000000000000000200000001\n0203000000030000000500000001\n040100000002\n0400\n0300\n030100000000\n0500\n",
            b"81030000000100000000FFFFFFFF\n81030000000200000000FFFFFFFF\n81030000000300000000FFFFFFFF\n8202FFFFFFF300000008\n8103000000040000000900000002\n81030000000500000000FFFFFFFF\n8103000000060000000900000002\n81030000000700000000FFFFFFFF\n83020000000000000000\n84020000000100000000\n84020000000000000001\n",
        )
    );
}
