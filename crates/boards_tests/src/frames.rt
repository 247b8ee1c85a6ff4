// Frame boards: the mean of a tile, and which bytes are its own.
use crate::numbers::{answer, refused};
use boards::{Board, Frame};
use std::test::Fail;

#[test]
fn one_light_byte(rt: HostRuntime) -> Result<(), Fail> {
    let mut bytes = [0u8; 256];
    bytes[100] = 255;
    let mut board = answer(Frame::new(1, 1, &bytes, 0))?;
    assert_eq!(rt; answer(board.zone(0))?, 0);
    assert_eq!(rt; refused(board.zone(1)), 23);
    Ok(())
}

#[test]
fn all_light(rt: HostRuntime) -> Result<(), Fail> {
    let bytes = [255u8; 256];
    let mut board = answer(Frame::new(1, 1, &bytes, 0))?;
    assert_eq!(rt; answer(board.zone(0))?, 255);
    Ok(())
}

// In lines of 32 bytes the first 16 are a left tile's; the lower tiles begin at byte 512.
#[test]
fn lines_of_the_picture(rt: HostRuntime) -> Result<(), Fail> {
    let mut bytes = [0u8; 1024];
    bytes[15] = 128;
    bytes[32] = 128;
    bytes[16] = 255;
    bytes[63] = 255;
    bytes[48] = 2;
    bytes[512] = 255;
    bytes[527] = 255;
    bytes[992] = 255;
    bytes[1007] = 3;
    let mut board = answer(Frame::new(2, 2, &bytes, 0))?;
    for (i, mean) in [(0, 1), (1, 2), (2, 3), (3, 0)] {
        assert_eq!(rt; answer(board.zone(i))?, mean);
    }
    Ok(())
}

#[test]
fn largest(rt: HostRuntime) -> Result<(), Fail> {
    let bytes = vec![in rt.alloc(); 9u8; 1048576]?;
    let mut board = answer(Frame::new(64, 64, &bytes, 0))?;
    assert_eq!(rt; answer(board.zone(4095))?, 9);
    assert_eq!(rt; refused(board.zone(4096)), 23);
    assert_eq!(rt; refused(Frame::new(64, 63, &bytes, 0)), 25);
    Ok(())
}
