// Document 01, "Sheets sent back": the rows of its table, and those of document 02, ticket 4.
ghost use Rattle.std.specs.Prelude.{◌≡◌};
ghost use Rattle.checks.specs.Numbers.{refusal_number};

// What is wrong with a sheet, by rising number.
#[derive(Clone, Copy, Debug, PartialEq, Eq)]
pub enum Refusal {
    TooManyBytes,
    TooManyLines,
    LacksLF,
    UnknownKind,
    WrongFieldCount,
    NotNumber,
    OutOfRange,
    ProcessNotNext,
    MissingProcess,
    EndsNotAllowed,
    NoStandardValue,
    SecondOfPair,
    OutputExceeded,
    EmptySheet,
    FigureTooLarge,
    SpaceTooShort,
    SecondOfRank,
    NoFigures,
}

// A refusal and its line, 0 where it is no line's: the verdict of the definitions, and what C gets, have line 0 then.
#[derive(Clone, Copy, Debug, PartialEq, Eq)]
pub struct Refused {
    pub refusal: Refusal,
    pub line: usize,
}

// Of the whole sheet: no line's.
impl From<Refusal> for Refused {
    ghost from_gives = { λ r e. e ≡ record { refusal = r; line = 0 } };

    fn from(refusal: Refusal) -> Refused {
        Refused { refusal, line: 0 }
    }
}

// The table's number.
impl From<Refusal> for u64 {
    ghost from_gives = { λ r n. n ≡ refusal_number r };

    fn from(refusal: Refusal) -> u64 {
        match refusal {
            Refusal::TooManyBytes => 1,
            Refusal::TooManyLines => 2,
            Refusal::LacksLF => 3,
            Refusal::UnknownKind => 4,
            Refusal::WrongFieldCount => 5,
            Refusal::NotNumber => 6,
            Refusal::OutOfRange => 7,
            Refusal::ProcessNotNext => 8,
            Refusal::MissingProcess => 9,
            Refusal::EndsNotAllowed => 10,
            Refusal::NoStandardValue => 11,
            Refusal::SecondOfPair => 12,
            Refusal::OutputExceeded => 13,
            Refusal::EmptySheet => 14,
            Refusal::FigureTooLarge => 15,
            Refusal::SpaceTooShort => 16,
            Refusal::SecondOfRank => 17,
            Refusal::NoFigures => 18,
        }
    }
}
