// What can end the program early.
use boards::RefusedCrop;
use refusal::Refusal;
use std::io;
use thiserror::Error;

#[derive(Debug, Drop, Error)]
pub enum Fault {
    #[error("{0}")]
    Output(#[from] io::Error),
    #[error("{0}")]
    Refused(#[from] Refusal),
}

// By hand: a derived one has no type parameter of its own.
impl<B: Drop> From<RefusedCrop<B>> for Fault {
    fn from(refused: RefusedCrop<B>) -> Fault {
        Fault::Refused(refused.into())
    }
}
