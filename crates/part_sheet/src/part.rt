// The part's lines, its fields and its header, each written from the sheet's own bytes. A kind that is out has no norm, and is told by that.
ghost use Rattle.std.specs.Prelude.{◌≡◌, ◌≤◌, length};
ghost use Rattle.model.specs.Sheet.{lines_offset};
ghost use Rattle.sheet.specs.Reader.{Reads};
ghost use Rattle.norms.specs.Norms.{Accepts};
ghost use Rattle.part_sheet.specs.Part.{with_lines, LinesTaken, HeaderSet, IsPart};

use crate::bytes::{copy_bytes, write_number};
use sheet::Card;

// The lines of the reached kinds, in order, from where the lines of a sheet start: how many they are.
fn copy_lines(sheet: &[u8], card: Card, norms: &[u32; 32], part: &mut [u8]) -> usize
    requires accepts { Accepts sheet.now card norms.now }
    requires sheet_in_bounds { length sheet.now ≤ length part.old }
    ensures { LinesTaken sheet.now part.old result part.new }
{
    let width = 2 + card.kinds;
    let mut count = 0;
    for line in 0..card.lines {
        let kind = card.line_kind(sheet, line);
        let norm = norms[kind];
        if 0 < norm {
            copy_bytes(
                sheet,
                card.line_start(line),
                part,
                card.line_start(count),
                width,
            );
            count += 1;
        }
    }
    count
}

// The header of the sheet, with another number of lines and the offset and total that follow from it: its card.
fn write_header(sheet: &[u8], card: Card, lines: usize, part: &mut [u8]) -> Card
    requires reads { Reads sheet.now card }
    requires lines_le_lines { (lines ≤ card.lines) × (lines_offset ≤ length part.old) }
    ensures value { result ≡ with_lines card lines }
    ensures header_set { HeaderSet (with_lines card lines) part.old part.new }
{
    let taken = Card {
        kinds: card.kinds,
        codes: card.codes,
        lines,
        fields: card.fields,
    };
    copy_bytes(sheet, 0, part, 0, Card::HEADER);
    write_number(part, 4, lines);
    write_number(part, 12, taken.line_start(lines));
    write_number(part, 16, taken.field_start(taken.fields));
    taken
}

// The sheet of the reached part, to the front of a lent buffer as long as the sheet or longer: its card.
pub fn write_part(sheet: &[u8], card: Card, norms: &[u32; 32], part: &mut [u8]) -> Card
    requires accepts { Accepts sheet.now card norms.now }
    requires sheet_in_bounds { length sheet.now ≤ length part.old }
    ensures { IsPart sheet.now result part.new }
{
    let lines = copy_lines(sheet, card, norms, part);
    let taken = write_header(sheet, card, lines, part);
    let size = 2 * card.kinds * card.fields;
    copy_bytes(
        sheet,
        card.line_start(card.lines),
        part,
        taken.line_start(lines),
        size,
    );
    taken
}
