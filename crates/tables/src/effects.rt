// What the lines do: which of them match, and the classes of the lines.
ghost use Rattle.std.specs.Prelude.{◌≡◌, true, ◌↔◌, ◌^◌, ◌≤◌, ◌<◌, length};
ghost use Rattle.tables.specs.Lines.{lines_in, LineTable};
ghost use Rattle.tables.specs.Table.{Under};
ghost use Rattle.tables.specs.Match.{NoneBefore, Bounds, LeastMatch, TellsMatch, MatchTables, LineEffects, MatchBy};

use crate::effect::same_effect;
use crate::lines::{code_of, kind_of};
use crate::table::row_of;
use std::marker::Model;

// What the lines do: the lines, a row for each kind, and for each line the form of what it leaves. The tables are lent, and whole.
#[derive(Drop)]
pub struct Effects<'a> {
    lines: &'a [u8],
    rows: &'a [u32],
    forms: &'a [u64],
}

impl<'a> Model for Effects<'a> {
    ghost Value = { LineEffects };

    ghost view = { λ s. record { lines = s.lines.now; rows = s.rows.now; forms = s.forms.now } };

    ghost invariant = { λ s. MatchTables s.lines.now s.rows.now s.forms.now };
}

impl<'a> Effects<'a> {
    // What the lines do by these tables.
    pub fn new(lines: &'a [u8], rows: &'a [u32], forms: &'a [u64]) -> Effects<'a>
        requires { MatchTables lines.now rows.now forms.now }
        ensures { result ≡ record { lines = lines.now; rows = rows.now; forms = forms.now } }
    {
        Effects { lines, rows, forms }
    }

    // The lines.
    pub fn lines(&self) -> &'a [u8]
        ensures lent { result.now ≡ self.now.lines }
        ensures whole { LineTable result.now }
    {
        self.lines
    }

    // A row for each kind.
    pub fn rows(&self) -> &'a [u32]
        ensures lent { result.now ≡ self.now.rows }
        ensures long { length result.now ≡ 1024 }
    {
        self.rows
    }

    // For each line the form of what it leaves.
    pub fn forms(&self) -> &'a [u64]
        ensures lent { result.now ≡ self.now.forms }
        ensures long { length result.now ≡ 8192 }
        ensures small { Under (2 ^ 63) result.now }
    {
        self.forms
    }

    // Whether two lines match: the same code and the same effect.
    pub fn matches(&self, line: usize, other: usize) -> bool
        requires line_bound { (line < lines_in self.now.lines) × (other < lines_in self.now.lines) }
        ensures { (result ≡ true) ↔ MatchBy self.now line other }
    {
        if code_of(self.lines, line) != code_of(self.lines, other) {
            return false;
        }
        let kind = kind_of(self.lines, line);
        let its = kind_of(self.lines, other);
        same_effect(
            row_of(self.forms, line),
            row_of(self.rows, its),
            row_of(self.forms, other),
            row_of(self.rows, kind),
        )
    }

    // The class of a line: the least line that it matches. It is no line before `start`.
    pub fn class_of(&self, start: usize, line: usize) -> usize
        requires line_bound { line < lines_in self.now.lines }
        requires none_before { NoneBefore (MatchBy self.now) line start }
        ensures { LeastMatch (MatchBy self.now) line result }
    {
        for earlier in start..line {
            if self.matches(earlier, line) {
                return earlier;
            }
        }
        line
    }

    // The classes of all lines: two lines match just when their classes are the same number. No class is before the bound of its line.
    pub fn classes(&self, bounds: &[u8]) -> [u8; 256]
        requires lines_in_bounds { lines_in self.now.lines ≤ length bounds.now }
        requires bounds { Bounds (MatchBy self.now) (lines_in self.now.lines) bounds.now }
        ensures tells_match { TellsMatch (MatchBy self.now) (lines_in self.now.lines) result }
        ensures class_bounds { Bounds (MatchBy self.now) (lines_in self.now.lines) result }
    {
        let count = self.lines.len() / 3;
        let mut numbers = [0u8; 256];
        for line in 0..count {
            let start = usize::from(bounds[line]);
            numbers[line] = self.class_of(start, line) as u8;
        }
        numbers
    }
}
