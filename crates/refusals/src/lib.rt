// Why a call turns back what it was given, and the number of each refusal.
#![tactic(auto)]

ghost use Rattle.std.specs.Prelude.{◌≡◌, Some, decimal};
ghost use Rattle.refusals.specs.Numbers.{number};

use std::fmt;

#[derive(Clone, Copy, Debug, PartialEq, Eq)]
pub enum Refusal {
    // ---- a formula
    NoHeader = 1,
    CountTooLarge = 2,
    NotANumber = 3,
    VariableTooHigh = 4,
    UnendedClause = 7,
    ClauseCount = 8,
    TooManyLiterals = 9,
    // ---- buffers and wishes
    ShortWorkspace = 11,
    ShortLogBuffer = 12,
    ShortFormulaBuffer = 13,
    ShortLineBuffer = 14,
    StepOutOfRange = 15,
    TooManyVariables = 16,
    ShortTable = 17,
    // ---- a log
    BadLogLine = 31,
    NoSuchClause = 32,
    CarriedBackFails = 33,
    TooFewLines = 34,
    // ---- an answer or a plan
    BadLayout = 41,
    UnknownVariable = 42,
    NamedTwice = 43,
    AnswerFails = 44,
    PlanFails = 45,
    CarriedForwardFails = 46,
}

impl From<Refusal> for u32 {
    ghost from_gives = { λ r n. n ≡ number r };

    fn from(r: Refusal) -> u32 {
        r as u32
    }
}

impl fmt::Display for Refusal {
    ghost output = { λ r. Some (decimal (number r)) };

    fn fmt<W: fmt::Write>(&self, f: &mut fmt::Formatter<W>) -> fmt::Result {
        let n = u32::from(*self);
        write!(f, "{n}")
    }
}
