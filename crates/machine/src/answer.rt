// What a call of the machine answers.
use crate::ending::Ending;

// How a run ended or waits, and where; the ticks spent and the instructions counted since the start.
#[derive(Clone, Copy, PartialEq, Eq, Debug)]
pub struct Answer {
    pub ending: Ending,
    pub place: i32,
    pub spent: u64,
    pub counted: u64,
}

// How a run that is over ended, and where.
#[derive(Clone, Copy, PartialEq, Eq, Debug)]
pub struct Ended {
    pub ending: Ending,
    pub place: i32,
}
