// What the parts of a script came to: a struct each, whose first field's name says what it is, not one generic.
ghost use Rattle.std.specs.Prelude.{◌≡◌, None, Some};
ghost use Rattle.std.specs.Option.{IfSome};

use meaning::Scalar;

// An expression's type, and the place in the tokens after it.
#[derive(Clone, Copy, PartialEq, Eq, Debug)]
pub(crate) struct Typed {
    pub(crate) kind: Scalar,
    pub(crate) end: usize,
}

// The arguments of a call, as far as they matter: no function takes more than one. Three cases, so no `Option`.
#[derive(Clone, Copy, PartialEq, Eq, Debug)]
pub(crate) enum Given {
    Nothing,
    One(Scalar),
    Many,
}

// The arguments of a call, and the place in the tokens after them.
#[derive(Clone, Copy, PartialEq, Eq, Debug)]
pub(crate) struct Listed {
    pub(crate) given: Given,
    pub(crate) end: usize,
}

// What a call or a whole expression statement gives, and the place in the tokens after it.
#[derive(Clone, Copy, PartialEq, Eq, Debug)]
pub(crate) struct Called {
    pub(crate) gives: Option<Scalar>,
    pub(crate) end: usize,
}

impl From<Typed> for Called {
    ghost from_gives = { λ typed called. called ≡ record { gives = Some typed.kind; end = typed.end } };

    fn from(typed: Typed) -> Called {
        Called {
            gives: Some(typed.kind),
            end: typed.end,
        }
    }
}

impl Called {
    // The value that it gives, if it gives one.
    pub(crate) fn value(self) -> Option<Typed>
        ensures some { IfSome result (λ typed. self ≡ record { gives = Some typed.kind; end = typed.end }) }
        ensures none { result ≡ None → self.gives ≡ None }
    {
        match self.gives {
            Some(kind) => Some(Typed {
                kind,
                end: self.end,
            }),
            None => None,
        }
    }
}

// What an extern takes, and the place in the tokens of the bracket that closes it.
#[derive(Clone, Copy, PartialEq, Eq, Debug)]
pub(crate) struct Parameter {
    pub(crate) takes: Option<Scalar>,
    pub(crate) close: usize,
}
