// The sheet with the same kinds, codes and fields, and the lines of reached kinds alone.
ghost use Rattle.std.specs.Prelude.{◌+◌, ◌≤◌, ◌<◌};
ghost use Rattle.model.specs.Sheet.{kind_count};

use crate::marks::{marked, reached_marks};
use random_cards::writing::{put, put_header, put_number};
use second_reader::{
    codes, field_count, fields, kinds, line_code, line_kind, line_left, line_start, lines,
};

// A line of the sheet is written, to a position.
fn put_line(sheet: &[u8], line: usize, start: usize, out: &mut [u8; 128])
    requires { (kind_count sheet.now ≤ 32) × (line < 65536) × (start < 10000000) }
{
    put(out, start, line_kind(sheet, line));
    put(out, start + 1, line_code(sheet, line));
    for kind in 0..kinds(sheet) {
        put(out, start + 2 + kind, line_left(sheet, line, kind));
    }
}

// The lines of reached kinds are written: how many they are.
fn put_lines(sheet: &[u8], out: &mut [u8; 128]) -> usize
    requires { kind_count sheet.now ≤ 32 }
    ensures { result < 65536 }
{
    let marks = reached_marks(sheet);
    let mut kept = 0;
    for line in 0..lines(sheet) {
        if marked(&marks, line_kind(sheet, line)) {
            put_line(sheet, line, line_start(sheet, kept), out);
            kept += 1;
        }
    }
    kept
}

// A field of the sheet is written, to a position: where it ends.
fn put_field(sheet: &[u8], field: usize, start: usize, out: &mut [u8; 128]) -> usize
    requires { (kind_count sheet.now ≤ 32) × (field < 65536) × (start < 100000000) }
    ensures { result ≤ start + 64 }
{
    for kind in 0..kinds(sheet) {
        put_number(out, start + 2 * kind, field_count(sheet, field, kind));
    }
    start + 2 * kinds(sheet)
}

// The fields of the sheet are written, from a position on: where they end.
fn put_fields(sheet: &[u8], start: usize, out: &mut [u8; 128]) -> usize
    requires { (kind_count sheet.now ≤ 32) × (start < 10000000) }
{
    let mut end = start;
    for field in 0..fields(sheet) {
        end = put_field(sheet, field, end, out);
    }
    end
}

// The reached part of a sheet, at the front of a buffer: its length. It is 0 where the sheet has more than 32 kinds, or the buffer has no room.
pub fn reached_part(sheet: &[u8], out: &mut [u8; 128]) -> usize
    ensures { result ≤ 128 }
{
    if 32 < kinds(sheet) {
        return 0;
    }
    let kept = put_lines(sheet, out);
    let start = line_start(sheet, kept);
    let end = put_fields(sheet, start, out);
    put_header(
        kinds(sheet),
        codes(sheet),
        kept,
        fields(sheet),
        start,
        end,
        out,
    );
    if end <= 128 { end } else { 0 }
}
