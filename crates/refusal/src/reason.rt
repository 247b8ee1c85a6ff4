// The reasons of a refusal, and a refusal with its place.
ghost use Rattle.std.specs.Prelude.{◌≡◌};
ghost use Rattle.refusal.specs.Told.{number_of};

use std::fmt;

// Why a call is refused; the number of each is part of the interface.
#[derive(Clone, Copy, PartialEq, Eq, Debug)]
pub enum Reason {
    // Before anything is read.
    SourceTooLong = 1,
    TokenListShort = 2,
    CodeListShort = 3,
    // Reading the tokens of a source.
    StrayByte = 4,
    UnclosedComment = 5,
    BadCharacter = 6,
    NumberTooLarge = 7,
    TooManyTokens = 8,
    // Grammar.
    UnexpectedToken = 9,
    TooDeep = 10,
    // Names and types.
    UnlistedExtern = 11,
    DuplicateName = 12,
    AbsentName = 13,
    MisusedName = 14,
    TypeMismatch = 15,
    OutsideLoop = 16,
    TooManyCells = 17,
    // Running.
    NothingLoaded = 18,
    CodeListCut = 19,
    TooManyTicks = 20,
    RunOver = 21,
    GrantTooLarge = 22,
    // Boards.
    NoSuchZone = 23,
    ReportsFull = 24,
    BadDimensions = 25,
    AllowanceTooLarge = 26,
    CropOutside = 27,
}

// A refusal: its reason, and the byte of the source it is about, 0 where it is about none.
#[derive(Clone, Copy, PartialEq, Eq, Debug)]
pub struct Refusal {
    pub reason: Reason,
    pub place: u32,
}

impl Reason {
    // The number that users, firmware and a script's run see.
    pub fn number(self) -> u8
        ensures { result ≡ number_of self }
    {
        self as u8
    }

    // A refusal for this reason that is about the byte at `place`.
    pub fn at(self, place: u32) -> Refusal
        ensures { result ≡ record { reason = self; place = place } }
    {
        Refusal {
            reason: self,
            place,
        }
    }
}

impl fmt::Display for Reason {
    ghost use Rattle.std.specs.Prelude.{Some};
    ghost use Rattle.std.specs.Fmt.{decimal};

    ghost output = { λ reason. Some (decimal (number_of reason)) };

    fn fmt<W: fmt::Write>(&self, f: &mut fmt::Formatter<W>) -> fmt::Result {
        let number = self.number();
        write!(f, "{number}")
    }
}

// A refusal that is about no byte of a source.
impl From<Reason> for Refusal {
    ghost from_gives = { λ reason refusal. refusal ≡ record { reason = reason; place = 0 } };

    fn from(reason: Reason) -> Refusal {
        reason.at(0)
    }
}

impl fmt::Display for Refusal {
    ghost use Rattle.std.specs.Prelude.{Some};
    ghost use Rattle.refusal.specs.Told.{line_of};

    ghost output = { λ refusal. Some (line_of refusal) };

    fn fmt<W: fmt::Write>(&self, f: &mut fmt::Formatter<W>) -> fmt::Result {
        let reason = self.reason;
        let place = self.place;
        write!(f, "refused {reason} {place}")
    }
}
