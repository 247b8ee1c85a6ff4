// The names in force while a script is translated, as records on a bounded stack.
use meaning::Scalar;

// A function that a script can name.
#[derive(Clone, Copy, PartialEq, Eq, Debug)]
pub enum Callee {
    Zone,
    Columns,
    Rows,
    Report,
    Main,
}

// What a record stands for.
#[derive(Clone, Copy, PartialEq, Eq, Debug, Default)]
pub enum Entry {
    // A level begins here: what is newer belongs to it.
    #[default]
    Level,
    Variable(Scalar),
    // The stop of an open `for`, which has a cell and no name.
    Stop,
    Function(Callee),
}

// A record; the name of a variable is so many bytes of the source from the place on.
#[derive(Clone, Copy, PartialEq, Eq, Debug, Default)]
pub struct Name {
    pub(crate) entry: Entry,
    pub(crate) place: u32,
    pub(crate) length: u32,
}

// A variable as code uses it.
#[derive(Clone, Copy, PartialEq, Eq, Debug)]
pub(crate) struct Variable {
    pub(crate) kind: Scalar,
    pub(crate) cell: usize,
}
