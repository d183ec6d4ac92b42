// The card that a sheet's header gives, and the reading of its lines and fields.
ghost use Rattle.std.specs.Prelude.{◌≡◌, ◌+◌, ◌*◌, ◌≤◌, ◌<◌};
ghost use Rattle.model.specs.Limits.{most_kinds, most_codes, most_lines, most_fields, norm_limit};
ghost use Rattle.model.specs.Sheet.{lines_offset, line_of};
ghost use Rattle.sheet.specs.Reader.{header_of, Reads, line_counts, field_counts};

use crate::bytes::{byte_at, u16_at};

// The header's four numbers, by value.
#[derive(Clone, Copy, PartialEq, Eq, Debug)]
pub struct Card {
    pub kinds: usize,
    pub codes: usize,
    pub lines: usize,
    pub fields: usize,
}

impl Card {
    // "Limits belong to the card": the most kinds, codes, lines and fields, and the greatest norm taken.
    pub const KINDS: usize = 32;

    pub const CODES: usize = 64;

    pub const LINES: usize = 256;

    pub const FIELDS: usize = 64;

    pub const NORM: u32 = 1_000_000_000;

    // The bytes of the header: "offset of the lines: 20".
    pub const HEADER: usize = 20;

    // Each constant is the model's number: the most kinds.
    pub fn most_kinds() -> usize
        ensures { result ≡ most_kinds }
    {
        Card::KINDS
    }

    // The most codes.
    pub fn most_codes() -> usize
        ensures { result ≡ most_codes }
    {
        Card::CODES
    }

    // The most lines.
    pub fn most_lines() -> usize
        ensures { result ≡ most_lines }
    {
        Card::LINES
    }

    // The most fields.
    pub fn most_fields() -> usize
        ensures { result ≡ most_fields }
    {
        Card::FIELDS
    }

    // "the greatest norm taken"
    pub fn norm_limit() -> u32
        ensures { result ≡ norm_limit }
    {
        Card::NORM
    }

    // "offset of the lines"
    pub fn lines_offset() -> usize
        ensures { result ≡ lines_offset }
    {
        Card::HEADER
    }

    // The header's numbers, whatever they are.
    pub fn of_header(sheet: &[u8]) -> Card
        ensures { result ≡ header_of sheet.now }
    {
        Card {
            kinds: u16_at(sheet, 0),
            codes: u16_at(sheet, 2),
            lines: u16_at(sheet, 4),
            fields: u16_at(sheet, 6),
        }
    }

    // Where a line starts; for the number of lines, where the fields start.
    pub fn line_start(self, line: usize) -> usize
        requires { (self.kinds ≤ most_kinds) × (line ≤ most_lines) }
        ensures { (result ≡ lines_offset + line * (2 + self.kinds)) × (result < 65536) }
    {
        Card::HEADER + line * (2 + self.kinds)
    }

    // Where a field starts; for the number of fields, where the sheet ends.
    pub fn field_start(self, field: usize) -> usize
        requires { (self.kinds ≤ most_kinds) × (self.lines ≤ most_lines) × (field ≤ most_fields) }
        ensures { (result ≡ lines_offset + self.lines * (2 + self.kinds) + 2 * self.kinds * field) × (result < 65536) }
    {
        self.line_start(self.lines) + 2 * self.kinds * field
    }

    // The kind of a line.
    pub fn line_kind(self, sheet: &[u8], line: usize) -> usize
        requires reads { Reads sheet.now self }
        requires line_lt_lines { line < self.lines }
        ensures { result ≡ (line_of sheet.now line).kind }
    {
        byte_at(sheet, self.line_start(line))
    }

    // The code of a line.
    pub fn line_code(self, sheet: &[u8], line: usize) -> usize
        requires reads { Reads sheet.now self }
        requires line_lt_lines { line < self.lines }
        ensures { result ≡ (line_of sheet.now line).code }
    {
        byte_at(sheet, self.line_start(line) + 1)
    }

    // The counts of a line: the part of the sheet's own bytes that starts two bytes into the line.
    pub fn line_counts(self, sheet: &[u8], line: usize) -> &[u8]
        requires reads { Reads sheet.now self }
        requires line_lt_lines { line < self.lines }
        ensures { result.now ≡ line_counts sheet.now line }
    {
        let start = self.line_start(line) + 2;
        let end = start + self.kinds;
        &sheet[start..end]
    }

    // A field by value, 0 past the card's kinds.
    pub fn field(self, sheet: &[u8], field: usize) -> [u32; Card::KINDS]
        requires reads { Reads sheet.now self }
        requires field_lt_fields { field < self.fields }
        ensures { result ≡ field_counts sheet.now field }
    {
        let start = self.field_start(field);
        let mut counts = [0u32; Card::KINDS];
        for kind in 0..self.kinds {
            counts[kind] = u16_at(sheet, start + 2 * kind) as u32;
        }
        counts
    }
}
