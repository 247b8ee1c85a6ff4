// What a call said: its answer, or its refusal's number.
use refusal::Refusal;
use std::test::Fail;

// The refusal's number, 0 for an answer.
pub(crate) fn refused<T: Drop, E: Into<Refusal>>(said: Result<T, E>) -> u8 {
    match said {
        Ok(_) => 0,
        Err(error) => number(error),
    }
}

// The answer; a refusal fails the test.
pub(crate) fn answer<T, E: Into<Refusal>>(said: Result<T, E>) -> Result<T, Fail> {
    said.map_err(|error| Fail::new(number(error)))
}

fn number<E: Into<Refusal>>(error: E) -> u8 {
    let refusal: Refusal = error.into();
    refusal.reason.number()
}
