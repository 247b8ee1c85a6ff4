// How many records were filled.

#[derive(Clone, Copy, PartialEq, Eq, Debug)]
pub struct Counts {
    pub tokens: usize,
    pub code: usize,
}
