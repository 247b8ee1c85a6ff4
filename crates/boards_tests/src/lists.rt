// Statistics boards: their sides, their last zone, their allowance.
use crate::numbers::{answer, refused};
use boards::{Board, Stats};
use std::test::Fail;

const ZONES: [i32; 4096] = [7; 4096];

const MOST: u32 = u32::MAX;

// Columns, rows, how many zones are handed, allowance, and the refusal's number.
const BOARDS: [(u32, u32, usize, u32, u8); 11] = [
    (1, 1, 1, 0, 0),
    (64, 64, 4096, 64, 0),
    (0, 1, 0, 0, 25),
    (1, 0, 0, 0, 25),
    (65, 1, 65, 0, 25),
    (1, 65, 65, 0, 25),
    (2, 2, 3, 0, 25),
    (MOST, MOST, 1, 0, 25),
    (1, 1, 1, 65, 26),
    (1, 1, 1, MOST, 26),
    (0, 1, 1, 65, 25),
];

#[test]
fn sides(rt: HostRuntime) {
    for (columns, rows, len, allowance, number) in BOARDS {
        let zones = &ZONES[0..len.min(4096)];
        assert_eq!(rt;
            refused(Stats::new(columns, rows, zones, allowance)),
            number
        );
    }
}

#[test]
fn last_zone(rt: HostRuntime) -> Result<(), Fail> {
    let mut board = answer(Stats::new(64, 64, &ZONES, 0))?;
    assert_eq!(rt; answer(board.zone(4095))?, 7);
    for i in [4096, -1, i32::MAX, i32::MIN] {
        assert_eq!(rt; refused(board.zone(i)), 23);
    }
    Ok(())
}

#[test]
fn no_allowance(rt: HostRuntime) -> Result<(), Fail> {
    let mut board = answer(Stats::new(1, 1, &ZONES[0..1], 0))?;
    assert_eq!(rt; refused(board.report(5)), 24);
    assert_eq!(rt; board.kept(0), None);
    Ok(())
}

#[test]
fn whole_allowance(rt: HostRuntime) -> Result<(), Fail> {
    let mut board = answer(Stats::new(1, 1, &ZONES[0..1], 64))?;
    for v in 0..64 {
        answer(board.report(v))?;
    }
    assert_eq!(rt; refused(board.report(64)), 24);
    for (k, report) in [(0, Some(0)), (63, Some(63)), (64, None), (usize::MAX, None)] {
        assert_eq!(rt; board.kept(k), report);
    }
    Ok(())
}
