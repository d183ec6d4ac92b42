// entries: prints the source of the table of entries, crates/shelf/src/table.rt.
#![tactic(auto)]

ghost use Rattle.std.specs.Prelude.{◌≡◌, ℕ, ◌+◌, ◌*◌, ◌≤◌, ◌<◌, length};
ghost use Rattle.std.specs.Bool.{OnTrue};
ghost use Rattle.std.specs.Io.KnownBytes.{Appends, Keeps};
ghost use Rattle.text.specs.Appended.{Appended};
ghost use Rattle.entries.specs.Table.{entries_of, entry_line, entry_lines, row_texts, table_text};

use std::io::Write;
use text::{put_bytes, put_labelled};

// The entries for 0 kinds: "1 at (0, 0), 0 at (0, t) for t above 0".
fn first_row() -> [u64; 17]
    ensures { result ≡ entries_of 0 }
{
    let mut row = [0; 17];
    row[0] = 1;
    row
}

// The entries for k kinds become those for one kind more: "the entry for k - 1 and t plus, for t above 0, the entry for k and t - 1".
fn next_row(row: &mut [u64; 17])
    requires { (k : ℕ) × (k < 32) × (row.old ≡ entries_of k) }
    ensures { (k : ℕ) → row.old ≡ entries_of k → row.new ≡ entries_of (k + 1) }
{
    for t in 1..row.len() {
        row[t] += row[t - 1];
    }
}

// An entry as a line: four spaces, at most 20 digits, a comma and the end of the line.
fn put_entry(out: &mut [u8], at: usize, entry: u64) -> usize
    requires { at + 26 ≤ length out.old }
    ensures { Appended 26 out.old at (entry_line entry) out.new result }
{
    let next = put_labelled(out, at, b"    ", entry);
    put_bytes(out, next, b",\n")
}

// The lines of a row, an entry to a line.
fn put_row(out: &mut [u8], at: usize, row: &[u64]) -> usize
    requires { at + 26 * length row.now ≤ length out.old }
    ensures { Appended (26 * length row.now) out.old at (entry_lines row.now) out.new result }
{
    let mut next = at;
    for entry in row {
        next = put_entry(out, next, *entry);
    }
    next
}

// The lines of all rows, from 0 kinds to 32: 561 lines of at most 26 bytes.
fn put_rows(out: &mut [u8], at: usize) -> usize
    requires { at + 14586 ≤ length out.old }
    ensures { Appended 14586 out.old at (row_texts 33) out.new result }
{
    let mut row = first_row();
    let mut next = put_row(out, at, &row);
    for _ in 0..32usize {
        next_row(&mut row);
        next = put_row(out, next, &row);
    }
    next
}

// The whole source: the line that says what the table is, and the table as a constant.
fn put_table(out: &mut [u8], at: usize) -> usize
    requires { at + 15000 ≤ length out.old }
    ensures { Appended 15000 out.old at table_text out.new result }
{
    let start = put_bytes(
        out,
        at,
        b"// How many fields there are of t tokens of k kinds, for k from 0 to 32 and t from 0 to 16: entry 17 * k + t. The program `entries` prints this file.\npub const TABLE: [u64; 561] = [\n",
    );
    let end = put_rows(out, start);
    put_bytes(out, end, b"];\n")
}

// Prints the source, and answers whether all of it was written: to an output whose bytes are known it adds the table's text, and nothing else.
fn print_table<O: Write, E: Write>(output: &mut O, errors: &mut E) -> bool
    ensures written { OnTrue result (Appends (O.contents output.old) (O.contents output.new) table_text) }
    ensures silent { OnTrue result (Keeps (E.contents errors.old) (E.contents errors.new)) }
{
    let mut text = [0; 15000];
    let end = put_table(&mut text, 0);
    console::print(output, errors, b"entries", &text[..end])
}

// Prints the source; where that fails, standard error says so.
fn main(rt: HostRuntime) {
    print_table(&mut rt.stdout(), &mut rt.stderr());
}
