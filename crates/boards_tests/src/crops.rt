// Crops: their edges, and what they share with the board below.
use crate::numbers::{answer, refused};
use boards::{Board, Crop, Stats, Window};
use std::test::Fail;

const ZONES: [i32; 12] = [0, 10, 20, 30, 40, 50, 60, 70, 80, 90, 100, 110];

const MOST: u32 = u32::MAX;

// Left, top, columns and rows of a crop of 4 x 3 zones, and its refusal's number.
const CROPS: [(u32, u32, u32, u32, u8); 12] = [
    (0, 0, 4, 3, 0),
    (3, 2, 1, 1, 0),
    (1, 0, 4, 3, 27),
    (0, 1, 4, 3, 27),
    (4, 0, 1, 1, 27),
    (0, 3, 1, 1, 27),
    (0, 0, 0, 1, 27),
    (0, 0, 1, 0, 27),
    (MOST, 0, 2, 1, 27),
    (0, MOST, 1, 2, 27),
    (1, 0, MOST, 1, 27),
    (0, 1, 1, MOST, 27),
];

// What making the crop says.
fn crop(window: Window) -> u8 {
    let Ok(board) = Stats::new(4, 3, &ZONES, 2) else {
        return 255;
    };
    refused(Crop::new(board, window))
}

#[test]
fn edges(rt: HostRuntime) {
    for (left, top, columns, rows, number) in CROPS {
        assert_eq!(rt;
            crop(Window {
                left,
                top,
                columns,
                rows,
            }),
            number
        );
    }
}

#[test]
fn refused_crop_gives_the_board_back(rt: HostRuntime) -> Result<(), Fail> {
    let mut board = answer(Stats::new(4, 3, &ZONES, 2))?;
    answer(board.report(5))?;
    match Crop::new(
        board,
        Window {
            left: 0,
            top: 0,
            columns: 5,
            rows: 5,
        },
    ) {
        Ok(_) => Err(Fail::new("a crop outside")),
        Err(mut e) => {
            assert_eq!(rt; e.lower.kept(0), Some(5));
            Ok(())
        },
    }
}

// The crop of 2 x 2 zones at (1, 1) of the crop of 3 x 3 zones at (1, 0).
fn crop_of_a_crop() -> Result<Crop<Crop<Stats<'static>>>, Fail> {
    let outer = Window {
        left: 1,
        top: 0,
        columns: 3,
        rows: 3,
    };
    let inner = Window {
        left: 1,
        top: 1,
        columns: 2,
        rows: 2,
    };
    let board = answer(Stats::new(4, 3, &ZONES, 2))?;
    answer(Crop::new(answer(Crop::new(board, outer))?, inner))
}

#[test]
fn zones(rt: HostRuntime) -> Result<(), Fail> {
    let mut crop = crop_of_a_crop()?;
    assert_eq!(rt; crop.columns(), 2);
    assert_eq!(rt; crop.rows(), 2);
    assert_eq!(rt; answer(crop.zone(0))?, 60);
    assert_eq!(rt; answer(crop.zone(3))?, 110);
    assert_eq!(rt; refused(crop.zone(4)), 23);
    Ok(())
}

#[test]
fn reports_are_the_lower_boards(rt: HostRuntime) -> Result<(), Fail> {
    let mut crop = crop_of_a_crop()?;
    answer(crop.report(1))?;
    let mut board = crop.into_lower().into_lower();
    assert_eq!(rt; board.kept(0), Some(1));
    assert_eq!(rt; answer(board.zone(0))?, 0);
    Ok(())
}
