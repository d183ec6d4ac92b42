// The page of a sheet. One settlement serves all its lines.
ghost use Rattle.std.specs.Prelude.{◌≡◌, ◌*◌, ◌≤◌, length, take};
ghost use Rattle.model.specs.Limits.{most_kinds, most_input};
ghost use Rattle.model.specs.Norm.{kind_norm};
ghost use Rattle.model.specs.Sheet.{card_of};
ghost use Rattle.model.specs.Answer.{table_of};
ghost use Rattle.model.specs.Page.{lines, page_of};
ghost use Rattle.model.specs.Sense.{plain};
ghost use Rattle.filer.specs.Settlement.{IsSettlement, table_in};
ghost use Rattle.refusals.specs.Refusals.{answer_of};
ghost use Rattle.text.specs.Appended.{Appended};
ghost use Rattle.page.specs.Lengths.{most_page};
ghost use Rattle.page.specs.Writing.{write_page_of};

use crate::fields::put_fields;
use crate::kinds::put_kinds;
use crate::pairs::put_pairs;
use acceptance::accept::accept;
use filer::settle::write_table;
use filer::settlement::{Settlement, settle_accepted};
use listing::put_head;
use refusals::Refusal;
use tables::sense::Sense;
use tables::table::Base;
use text::put_bytes;
use verdicts::put_refused;

// "at most 12,821 bytes"
pub const INPUT: usize = 12821;

// No page is longer: most_page of specs/Lengths.antt, to which `blank` holds it.
pub const PAGE: usize = 74183;

// The page of a sheet to a lent buffer; a refused sheet's page is its refusal.
pub fn write_page(sheet: &[u8], out: &mut [u8]) -> Result<usize, Refusal>
    ensures result_value { answer_of (λ n. n) result ≡ (write_page_of sheet.now out.old).answer }
    ensures out_after { out.new ≡ (write_page_of sheet.now out.old).lent }
{
    let mut page = blank();
    let end = put_page(&mut page, input_part(sheet));
    if out.len() < end {
        return Err(Refusal::ShortBuffer);
    }
    let length = put_bytes(out, 0, &page[..end]);
    Ok(length)
}

// A page with nothing on it: a caller's proof does not see its bytes, but that they are as many as the longest page has, so that no other function goes by the number.
fn blank() -> [u8; PAGE]
    ensures { length result ≡ most_page }
{
    [0u8; PAGE]
}

// The bytes that the page goes by.
fn input_part(sheet: &[u8]) -> &[u8]
    ensures { result.now ≡ take most_input sheet.now }
{
    if sheet.len() < INPUT {
        return sheet;
    }
    &sheet[..INPUT]
}

// The page of a sheet to a buffer that has room for any.
fn put_page(out: &mut [u8], sheet: &[u8]) -> usize
    requires { most_page ≤ length out.old }
    ensures { Appended most_page out.old 0 (page_of sheet.now) out.new result }
{
    match accept(sheet) {
        Ok(acceptance) => {
            let mut settlement = Settlement::of(acceptance);
            settle_accepted(Sense::Plain, sheet, &mut settlement);
            put_lines(out, sheet, &settlement)
        }
        Err(refusal) => put_refused(out, 0, refusal.number(), refusal.place()),
    }
}

// The lines of an accepted sheet.
fn put_lines(out: &mut [u8], sheet: &[u8], settlement: &Settlement) -> usize
    requires settlement { IsSettlement plain sheet.now settlement.now }
    requires most_page_in_bounds { most_page ≤ length out.old }
    ensures { Appended most_page out.old 0 (lines sheet.now (table_of sheet.now) (kind_norm (card_of sheet.now))) out.new result }
{
    let n = settlement.card.kinds;
    let fields = settlement.card.fields;
    let norms = settlement.norms;
    let settled = &settlement.settled;
    let size = n * n;
    let table = table_of(&settled.base, n);
    let at_kinds = put_head(out, 0, n, settled.stage);
    let at_fields = put_kinds(out, at_kinds, n, norms, settled.base.since, &table[..size]);
    let at_pairs = put_fields(out, at_fields, sheet, settlement);
    put_pairs(out, at_pairs, sheet, settlement, fields)
}

// The rows of so many kinds, with as many counts to a row, at the front of an array.
fn table_of(base: &Base, kinds: usize) -> [u32; 1024]
    requires { kinds ≤ most_kinds }
    ensures { take (kinds * kinds) result ≡ table_in kinds base.now.rows }
{
    let mut table = [0u32; 1024];
    write_table(&base.rows, kinds, &mut table);
    table
}
