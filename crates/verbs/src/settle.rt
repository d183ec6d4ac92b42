// settle and row K.
ghost use Rattle.std.specs.Prelude.{◌++◌, ◌+◌, ◌*◌, ◌≤◌, length};
ghost use Rattle.model.specs.Limits.{most_kinds};
ghost use Rattle.model.specs.Sheet.{kind_count};
ghost use Rattle.model.specs.Answer.{given, row_of, row_check_of};
ghost use Rattle.text.specs.Appended.{Appended};
ghost use Rattle.text.specs.Count.{counts_line};
ghost use Rattle.replies.specs.Told.{told, Tells};
ghost use Rattle.verbs.specs.Texts.{most_stages, most_row, stages_line, row_lines, row_in};
ghost use Rattle.replies.specs.Texts.{most_text};
ghost use Rattle.verbs.specs.Calls.{settle_told, row_told};

use copies::widen;
use filer::row::{row, row_check};
use filer::settle::settle_sheet;
use replies::Reply;
use replies::reply::refuse;
use sheet::Card;
use text::{put_byte, put_counts_line, put_labelled};

// `stages S`.
fn put_stages(out: &mut [u8], at: usize, stage: usize) -> usize
    requires { at + most_stages ≤ length out.old }
    ensures { Appended most_stages out.old at (stages_line stage) out.new result }
{
    let last = put_labelled(out, at, b"stages ", stage as u64);
    put_byte(out, last, b'\n')
}

// The row of a kind in a table of so many kinds, as a line of its own; none where Row's check refuses.
fn put_row(out: &mut [u8], at: usize, table: &[u32], kinds: usize, kind: usize) -> usize
    requires { at + most_row ≤ length out.old }
    ensures { Appended most_row out.old at (counts_line (row_of kinds kind table.now)) out.new result }
{
    let part = row(table, kinds, kind);
    let counts: [u64; 32] = widen(part);
    put_counts_line(out, at, &counts[..part.len()])
}

// The rows of a table of so many kinds, each on a line of its own.
fn put_rows(out: &mut [u8], at: usize, table: &[u32], kinds: usize) -> usize
    requires { at + most_row * kinds ≤ length out.old }
    ensures { Appended (most_row * kinds) out.old at (row_lines kinds table.now) out.new result }
{
    let mut next = at;
    for kind in 0..kinds {
        next = put_row(out, next, table, kinds, kind);
    }
    next
}

// The stage and the rows of a settled sheet.
fn put_settled(out: &mut [u8], sheet: &[u8], stage: usize, table: &[u32]) -> Reply
    requires most_text_in_bounds { most_text ≤ length out.old }
    requires sheet_bound { kind_count sheet.now ≤ most_kinds }
    ensures { Tells (told (given (stages_line stage ++ row_lines (kind_count sheet.now) table.now))) out.old out.new result }
{
    let card = Card::of_header(sheet);
    let at_rows = put_stages(out, 0, stage);
    let length = put_rows(out, at_rows, table, card.kinds);
    Reply::answered(length)
}

// settle.
pub fn settle(sheet: &[u8], numbers: &[u64], out: &mut [u8]) -> Reply
    requires { most_text ≤ length out.old }
    ensures { Tells (settle_told sheet.now numbers.now) out.old out.new result }
{
    if numbers.len() != 0 {
        return Reply::no_call();
    }
    let mut table = [0u32; 1024];
    match settle_sheet(sheet, &mut table) {
        Ok(stage) => put_settled(out, sheet, stage, &table),
        Err(refusal) => refuse(out, refusal),
    }
}

// The row of a kind in a table of so many kinds, or the refusal of Row's check.
fn put_row_of(out: &mut [u8], table: &[u32], kinds: usize, kind: usize) -> Reply
    requires { most_text ≤ length out.old }
    ensures { Tells (told (row_in kinds kind table.now (row_check_of kinds kind table.now))) out.old out.new result }
{
    match row_check(table, kinds, kind) {
        Ok(()) => {
            let length = put_row(out, 0, table, kinds, kind);
            Reply::answered(length)
        }
        Err(refusal) => refuse(out, refusal),
    }
}

// row K.
pub fn settled_row(sheet: &[u8], numbers: &[u64], out: &mut [u8]) -> Reply
    requires { most_text ≤ length out.old }
    ensures { Tells (row_told sheet.now numbers.now) out.old out.new result }
{
    if numbers.len() != 1 {
        return Reply::no_call();
    }
    let kind = numbers[0] as usize;
    let mut table = [0u32; 1024];
    match settle_sheet(sheet, &mut table) {
        Ok(_) => {
            let card = Card::of_header(sheet);
            put_row_of(out, &table, card.kinds, kind)
        }
        Err(refusal) => refuse(out, refusal),
    }
}
