// The tests that tell whether the row of a kind in a table, a product of atoms, is its row at a stage.
ghost use Rattle.std.specs.Prelude.{◌≡◌, true, List, ◌↔◌, ℕ, ◌<◌, length};
ghost use Rattle.model.specs.Field.{unit};
ghost use Rattle.model.specs.Limits.{most_kinds};
ghost use Rattle.tables.specs.Match.{Lists, UsableIn};
ghost use Rattle.tables.specs.Senses.{sense_of};
ghost use Rattle.tables.specs.Class.{KindMarks, Passes};

use crate::expansion::uses_alike;
use crate::norm_reducing::all_answered;
use crate::total::shares_total;
use tables::effects::Effects;
use tables::sense::Sense;
use tables::table::row_of;

// Whether the row passes the tests: it shares with the kind what the sense asks for, it and the kind may use lines of the same classes of the stage before, and every challenge that lowers the norm has a
// reply. The kind's own lines that do are given.
pub fn passes(sense: Sense, effects: &Effects, marks: &[bool], own: &[u8], kind: usize) -> bool
    requires kind_lt_most_kinds { (kind < most_kinds) × (length marks.now ≡ 8192) }
    requires lists { Lists (UsableIn effects.now.lines (unit kind)) own.now }
    ensures { (classes : List ℕ) → KindMarks effects.now.lines classes marks.now → (result ≡ true) ↔ Passes (sense_of sense) effects.now.lines effects.now.rows effects.now.forms classes kind }
{
    let row = row_of(effects.rows(), kind);
    if shares_total(sense, row) {
        let alike = uses_alike(marks, kind, row);
        if alike {
            return all_answered(effects, own, kind);
        }
    }
    false
}
