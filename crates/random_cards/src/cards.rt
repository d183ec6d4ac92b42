// Random small cards, written as sheets (docs/SHEET.md): 1 to 4 kinds, 1 to 3 codes, at most 8 lines, 2 to 4 fields. Most cards have a
// norm for each kind: line k clears kind k, leaving tokens of lower kinds only. Most fields differ from field 0 in one token, for which stands
// another token, or what clearing it leaves and one token of kind 0, so that many pairs have equal norms. On a third of the cards with several
// kinds no field has a token of the last kinds, and no line is there to clear these: most of them are out, and may have no norm; some are reached by
// a line.
ghost use Rattle.std.specs.Prelude.{◌≤◌, ◌<◌};

use crate::random::{pick, pick_high};
use crate::writing::{put, put_header, put_number};

// The numbers of a card. Kind k has the number (k + shift) % kinds on the sheet. The lines that clear a kind leave nothing on a `flat` card. On
// a `chain` the others leave, from kind 1 up, one token of the kind below, so that its kinds part at stages 2, 3, 4. On a `loose` card no line
// is there to clear a kind. Fields have tokens of the first kinds alone, so many as `held`.
#[derive(Clone, Copy)]
struct Shape {
    seed: u64,
    kinds: usize,
    codes: usize,
    lines: usize,
    fields: usize,
    shift: usize,
    held: usize,
    flat: bool,
    chain: bool,
    loose: bool,
    ghost few_kinds: { (1 ≤ kinds) × (kinds ≤ 4) },
    ghost few_codes: { (1 ≤ codes) × (codes ≤ 3) },
    ghost few_lines: { lines ≤ 8 },
    ghost few_fields: { fields ≤ 4 },
    ghost shift_in_kinds: { shift < kinds },
    ghost held_in_kinds: { (1 ≤ held) × (held ≤ kinds) },
}

// How many of the kinds the fields may have: mostly all.
fn held_of(seed: u64, kinds: usize) -> usize
    requires { 1 ≤ kinds }
    ensures { (1 ≤ result) × (result ≤ kinds) }
{
    if kinds == 1 || pick(seed, 6, 3) != 0 {
        return kinds;
    }
    1 + pick_high(seed, 7, kinds - 1)
}

// The numbers that a seed gives.
fn shape_of(seed: u64) -> Shape {
    let kinds = 1 + pick_high(seed, 0, 4);
    let manner = pick(seed, 1, 16);
    Shape {
        seed,
        kinds,
        codes: 1 + pick(seed, 2, 3),
        lines: kinds + pick(seed, 3, 5),
        fields: 2 + pick(seed, 4, 3),
        shift: pick(seed, 5, kinds),
        held: held_of(seed, kinds),
        flat: manner < 8,
        chain: manner < 4,
        loose: manner == 15,
    }
}

// One token of its own kind, as a count of a kind.
fn one_of(own: usize, kind: usize) -> usize
    ensures { result ≤ 1 }
{
    usize::from(own == kind)
}

impl Shape {
    // The kind of a line.
    fn kind_of(self, line: usize) -> usize
        requires { line < 8 }
        ensures { result < self.kinds }
    {
        if self.loose {
            return pick(self.seed, 10 + line, self.kinds);
        }
        if line < self.held {
            return line;
        }
        if self.chain {
            return (line + 1 - self.held) % self.kinds;
        }
        pick(self.seed, 10 + line, self.kinds)
    }

    // The code of a line: mostly the first for a line that clears a kind, and the second for one of a chain.
    fn code_of(self, line: usize) -> usize
        requires { line < 8 }
        ensures { result < self.codes }
    {
        if pick(self.seed, 20 + line, 4) == 0 {
            return pick(self.seed, 30 + line, self.codes);
        }
        if line < self.held {
            return 0;
        }
        if self.chain {
            return 1 % self.codes;
        }
        pick(self.seed, 30 + line, self.codes)
    }

    // One token where the seed has 0 below a limit, else none.
    fn token(self, place: usize, limit: usize) -> usize
        requires { 0 < limit }
        ensures { result ≤ 1 }
    {
        one_of(pick(self.seed, place, limit), 0)
    }

    // Of how many lines one leaves a token of a kind. A kind that fields do not have is mostly left by lines of such kinds, and so is rarely reached.
    fn one_in(self, line: usize, kind: usize) -> usize
        requires { line < 8 }
        ensures { 0 < result }
    {
        if kind < self.held {
            return 3;
        }
        if self.held <= self.kind_of(line) {
            return 2;
        }
        9
    }

    // How many tokens of a kind a line leaves.
    fn left_by(self, line: usize, kind: usize) -> usize
        requires { (line < 8) × (kind < 4) }
        ensures { result ≤ 1 }
    {
        let place = 40 + line * 4 + kind;
        if self.loose {
            return self.token(place, self.one_in(line, kind));
        }
        if self.held <= line {
            if self.chain {
                return one_of((line - self.held) % self.kinds, kind);
            }
            return self.token(place, self.one_in(line, kind));
        }
        if self.flat || line <= kind {
            return 0;
        }
        self.token(place, 2)
    }

    // How many tokens of a kind a field has.
    fn tokens_of(self, field: usize, kind: usize) -> usize
        requires { (field < 4) × (kind < 4) }
        ensures { result ≤ 3 }
    {
        if self.held <= kind {
            return 0;
        }
        let shared = self.token(80 + kind, 4);
        let x = pick_high(self.seed, 90, self.held);
        if field == 0 {
            return shared + one_of(x, kind);
        }
        let way = pick(self.seed, 100 + field, 8);
        if way < 3 {
            return shared + self.left_by(x, kind) + one_of(0, kind);
        }
        if way < 6 {
            return shared + one_of(pick(self.seed, 110 + field, self.held), kind);
        }
        self.token(120 + field * 4 + kind, 2)
    }

    // Where a line starts; for the number of lines, where the fields start.
    fn line_start(self, line: usize) -> usize
        requires { line ≤ 8 }
        ensures { result ≤ 68 }
    {
        20 + line * (2 + self.kinds)
    }

    // Where a field starts; for the number of fields, where the sheet ends.
    fn field_start(self, field: usize) -> usize
        requires { field ≤ 4 }
        ensures { result ≤ 100 }
    {
        self.line_start(self.lines) + 2 * (self.kinds * field)
    }

    // A line is written.
    fn put_line(self, line: usize, out: &mut [u8; 128])
        requires { line < 8 }
    {
        let start = self.line_start(line);
        put(out, start, (self.kind_of(line) + self.shift) % self.kinds);
        put(out, start + 1, self.code_of(line));
        for k in 0..self.kinds {
            put(
                out,
                start + 2 + (k + self.shift) % self.kinds,
                self.left_by(line, k),
            );
        }
    }

    // A field is written.
    fn put_field(self, field: usize, out: &mut [u8; 128])
        requires { field < 4 }
    {
        let start = self.field_start(field);
        for k in 0..self.kinds {
            put_number(
                out,
                start + 2 * ((k + self.shift) % self.kinds),
                self.tokens_of(field, k),
            );
        }
    }

    // The lines are written.
    fn put_lines(self, out: &mut [u8; 128]) {
        for line in 0..self.lines {
            self.put_line(line, out);
        }
    }

    // The fields are written.
    fn put_fields(self, out: &mut [u8; 128]) {
        for field in 0..self.fields {
            self.put_field(field, out);
        }
    }
}

// The sheet of a seed, at the front of a buffer: its length.
pub fn random_sheet(seed: u64, out: &mut [u8; 128]) -> usize
    ensures { result ≤ 100 }
{
    let shape = shape_of(seed);
    let start = shape.line_start(shape.lines);
    let end = shape.field_start(shape.fields);
    put_header(
        shape.kinds,
        shape.codes,
        shape.lines,
        shape.fields,
        start,
        end,
        out,
    );
    shape.put_lines(out);
    shape.put_fields(out);
    end
}
