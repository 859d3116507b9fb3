// Why a call refuses: one case for each number of document 01's table of refusals.
#![tactic(auto)]

ghost use Rattle.std.specs.Prelude.{◌≡◌, Some, decimal};
ghost use Rattle.refusals.specs.Numbers.{refusal_number};

use std::fmt;

#[derive(Clone, Copy, Debug, PartialEq, Eq)]
pub enum Refusal {
    // 1: q is not 2 or 4
    UnknownQ,
    // 2: u is not from q to n - 1, or it is a gap
    NoCode,
    // 3: the decoder has not so many steps
    TooManySteps,
    // 4: another length than n for a row, k for a message
    WrongLength,
    // 5: a number from q² on where a symbol is due
    NoSymbol,
    // 6: work area too short
    ShortWork,
    // 7: an output too short
    ShortOutput,
    // 8: more than the reach's places differ
    BeyondReach,
    // 9: block header or total length not as document 01 has them
    BadBlock,
    // 10: payload not 20R bytes
    WrongPayload,
    // 11: fewer than R records
    FewRecords,
}

// The number itself, for callers that are told no more.
impl From<Refusal> for u8 {
    ghost from_gives = { λ why number. number ≡ refusal_number why };

    fn from(why: Refusal) -> u8 {
        match why {
            Refusal::UnknownQ => 1,
            Refusal::NoCode => 2,
            Refusal::TooManySteps => 3,
            Refusal::WrongLength => 4,
            Refusal::NoSymbol => 5,
            Refusal::ShortWork => 6,
            Refusal::ShortOutput => 7,
            Refusal::BeyondReach => 8,
            Refusal::BadBlock => 9,
            Refusal::WrongPayload => 10,
            Refusal::FewRecords => 11,
        }
    }
}

// A refusal is printed as its number, in decimal.
impl fmt::Display for Refusal {
    ghost output = { λ why. Some (decimal (refusal_number why)) };

    fn fmt<W: fmt::Write>(&self, f: &mut fmt::Formatter<W>) -> fmt::Result {
        fmt::Display::fmt(&u8::from(*self), f)
    }
}
