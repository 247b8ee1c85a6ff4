// The operators on numbers.

// What is computed of a left and a right number.
#[derive(Clone, Copy, PartialEq, Eq, Debug)]
pub enum Operator {
    Add,
    Sub,
    Mul,
    Div,
    Rem,
    Less,
    Greater,
    Equal,
}

// What is computed of one number.
#[derive(Clone, Copy, PartialEq, Eq, Debug)]
pub enum Unary {
    // The low 8 bits, with a sign.
    Low,
    // 1 for 0, and 0 for all else.
    Not,
}
