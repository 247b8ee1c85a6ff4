// The faults of the grammar.

// What is wrong with a list of tokens, and at which of them; one past the last where more was to come.
#[derive(Clone, Copy, PartialEq, Eq, Debug)]
pub enum Fault {
    // No script goes on with this token.
    Unexpected(usize),
    // Something deeper than allowed begins at this token.
    TooDeep(usize),
}
