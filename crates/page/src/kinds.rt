// The lines of the kinds.
ghost use Rattle.std.specs.Prelude.{◌+◌, ◌*◌, ◌≤◌, length};
ghost use Rattle.model.specs.Limits.{most_kinds};
ghost use Rattle.text.specs.Appended.{Appended};
ghost use Rattle.listing.specs.Line.{kinds_text};
ghost use Rattle.page.specs.Lengths.{most_kind};

use filer::row::row;
use listing::put_kind;

// The lines of so many kinds, by their norms, their marks and a table with a row for each.
pub fn put_kinds(
    out: &mut [u8],
    at: usize,
    kinds: usize,
    norms: [u32; 32],
    since: [usize; 32],
    table: &[u32],
) -> usize
    requires le_kinds { (1 ≤ kinds) × (kinds ≤ most_kinds) }
    requires kinds_in_bounds { kinds * kinds ≤ length table.now }
    requires out_in_bounds { at + most_kind * kinds ≤ length out.old }
    ensures { Appended (most_kind * kinds) out.old at (kinds_text kinds norms since table.now) out.new result }
{
    let mut next = at;
    for kind in 0..kinds {
        let part = row(table, kinds, kind);
        next = put_kind(out, next, kind, norms[kind], since[kind], part);
    }
    next
}
