// Settle: "writes the final base to a lent table of 32-bit counts, row by row in kind number, n × n of them, and reports the settled stage".
ghost use Rattle.std.specs.Prelude.{◌≡◌, ◌*◌, ◌≤◌, length};
ghost use Rattle.model.specs.Limits.{most_kinds};
ghost use Rattle.model.specs.Answer.{written, settle_of, settle_since_of};
ghost use Rattle.refusals.specs.Refusals.{answer_of};
ghost use Rattle.filer.specs.Settlement.{table_in};

use crate::settlement::{Settlement, settle_accepted};
use acceptance::accept::accept;
use copies::{narrow, write};
use refusals::Refusal;
use tables::sense::Sense;

// Settle, of any bytes and a table of any length; a refusal leaves the table as it was.
pub fn settle_sheet(sheet: &[u8], table: &mut [u32]) -> Result<usize, Refusal>
    ensures result_value { answer_of (λ stage. stage) result ≡ (settle_of sheet.now table.old).answer }
    ensures table_after { table.new ≡ (settle_of sheet.now table.old).lent }
{
    let acceptance = accept(sheet)?;
    let mut settlement = Settlement::of(acceptance);
    settle_accepted(Sense::Plain, sheet, &mut settlement);
    let n = settlement.card.kinds;
    if table.len() < n * n {
        return Err(Refusal::ShortBuffer);
    }
    let settled = &settlement.settled;
    let stage = settled.stage;
    write_table(&settled.base.rows, n, table);
    Ok(stage)
}

// Settle with the marks (request 9 of document 02), of any bytes, a table and a buffer of any length; a refusal leaves both as they were. A mark is "the first stage, from 1 up, at which its row
// became the one finally settled"; the kinds that are out, which have none, get 0.
pub fn settle_since(sheet: &[u8], table: &mut [u32], since: &mut [u32]) -> Result<usize, Refusal>
    ensures result_value { answer_of (λ stage. stage) result ≡ (settle_since_of sheet.now table.old since.old).answer }
    ensures table_after { table.new ≡ (settle_since_of sheet.now table.old since.old).table }
    ensures since_after { since.new ≡ (settle_since_of sheet.now table.old since.old).marks }
{
    let acceptance = accept(sheet)?;
    let mut settlement = Settlement::of(acceptance);
    settle_accepted(Sense::Plain, sheet, &mut settlement);
    let n = settlement.card.kinds;
    if table.len() < n * n {
        return Err(Refusal::ShortBuffer);
    }
    if since.len() < n {
        return Err(Refusal::ShortBuffer);
    }
    let settled = &settlement.settled;
    let last = settled.stage;
    write_table(&settled.base.rows, n, table);
    narrow(&settled.base.since[..n], since);
    Ok(last)
}

// The first n rows of a base, which has 32 counts to a row, to the front of a table that has n.
pub fn write_table(rows: &[u32], kinds: usize, table: &mut [u32])
    requires rows_len { (length rows.now ≡ 1024) × (kinds ≤ most_kinds) }
    requires kinds_in_bounds { kinds * kinds ≤ length table.old }
    ensures { table.new ≡ written (table_in kinds rows.now) table.old }
{
    for row in 0..kinds {
        let start = row * 32;
        let place = row * kinds;
        write(
            &rows[start..start + kinds],
            &mut table[place..place + kinds],
        );
    }
}
