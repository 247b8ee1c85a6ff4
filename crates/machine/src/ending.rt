// How a run ends.
use refusal::Reason;

#[derive(Clone, Copy, PartialEq, Eq, Debug)]
pub enum Ending {
    // The code returned this value.
    Returned(i32),
    // No tick is left; the run can go on with more.
    Waiting,
    // A divisor was 0.
    Divided,
    // The board refused a call.
    Board(Reason),
    // The code did what no code may do.
    Broken,
}
