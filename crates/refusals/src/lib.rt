// Why a call is refused: the refusal table as a type.
#![tactic(auto)]

ghost use Rattle.std.specs.Prelude.{◌≡◌};
ghost use Rattle.refusals.specs.Refusals.{number_of, place_of};

// The rows of the refusal table (docs/SHEET.md): one for each number and place, those with any line or kind as their place as one.
#[derive(Clone, Copy, Debug, PartialEq, Eq)]
pub enum Refusal {
    // 1: the sheet has fewer bytes than a header.
    ShortSheet,
    // 2 to 5: the header's numbers of kinds, codes, lines and fields.
    KindCount,
    CodeCount,
    LineCount,
    FieldCount,
    // 6: the offset of the lines, that of the fields, the total, and the bytes given.
    LinesOffset,
    FieldsOffset,
    Total,
    ByteCount,
    // 7 and 8: a line's kind, and its code.
    LineKind { line: usize },
    LineCode { line: usize },
    // 9 and 10: a kind that has no norm, and one whose norm is over the limit.
    NoNorm { kind: usize },
    LargeNorm { kind: usize },
    // 11: the first field or kind number, and the second.
    FirstNumber,
    SecondNumber,
    // 12: a buffer or table is too short.
    ShortBuffer,
    // 13: the round limit.
    RoundLimit,
    // 14 and 15: the tokens of a field or a size, and a number at a size.
    ManyTokens,
    NumberAtSize,
    // 16: the desk.
    Desk,
    // 17: a squad that is empty.
    EmptySquad,
    // 18: the fields of a size are too many to be looked at.
    ManyFields,
}

impl Refusal {
    // The number of a refusal in the table.
    pub fn number(self) -> usize
        ensures { result ≡ number_of self }
    {
        match self {
            Refusal::ShortSheet => 1,
            Refusal::KindCount => 2,
            Refusal::CodeCount => 3,
            Refusal::LineCount => 4,
            Refusal::FieldCount => 5,
            Refusal::LinesOffset => 6,
            Refusal::FieldsOffset => 6,
            Refusal::Total => 6,
            Refusal::ByteCount => 6,
            Refusal::LineKind { line: _ } => 7,
            Refusal::LineCode { line: _ } => 8,
            Refusal::NoNorm { kind: _ } => 9,
            Refusal::LargeNorm { kind: _ } => 10,
            Refusal::FirstNumber => 11,
            Refusal::SecondNumber => 11,
            Refusal::ShortBuffer => 12,
            Refusal::RoundLimit => 13,
            Refusal::ManyTokens => 14,
            Refusal::NumberAtSize => 15,
            Refusal::Desk => 16,
            Refusal::EmptySquad => 17,
            Refusal::ManyFields => 18,
        }
    }

    // The place of a refusal: which of a number's, a line, a kind, or 0 where the number has one place alone.
    pub fn place(self) -> usize
        ensures { result ≡ place_of self }
    {
        match self {
            Refusal::FieldsOffset => 1,
            Refusal::Total => 2,
            Refusal::ByteCount => 3,
            Refusal::LineKind { line } => line,
            Refusal::LineCode { line } => line,
            Refusal::NoNorm { kind } => kind,
            Refusal::LargeNorm { kind } => kind,
            Refusal::SecondNumber => 1,
            Refusal::EmptySquad => 1,
            _ => 0,
        }
    }
}
