// The lines of an accepted sheet: the norm that each leaves, which lower the norm, and g.
ghost use Rattle.std.specs.Prelude.{◌≡◌, ◌<◌};
ghost use Rattle.model.specs.Norm.{kind_norm, norm};
ghost use Rattle.model.specs.Base as base;
ghost use Rattle.model.specs.Sheet.{line_of, card_of};
ghost use Rattle.norms.specs.Norms.{Accepts, lowers_norm, line_gain};

use sheet::Card;
use weights::value::weight;

// The norm of the tokens that a line leaves.
pub fn left_norm(sheet: &[u8], card: Card, norms: &[u32; 32], line: usize) -> u64
    requires accepts { Accepts sheet.now card norms.now }
    requires line_lt_lines { line < card.lines }
    ensures { result ≡ norm (card_of sheet.now) (line_of sheet.now line).left }
{
    weight(norms, card.line_counts(sheet, line))
}

// The norm of a line's kind.
pub fn own_norm(sheet: &[u8], card: Card, norms: &[u32; 32], line: usize) -> u64
    requires accepts { Accepts sheet.now card norms.now }
    requires line_lt_lines { line < card.lines }
    ensures { result ≡ kind_norm (card_of sheet.now) (line_of sheet.now line).kind }
{
    let kind = card.line_kind(sheet, line);
    let norm = norms[kind];
    u64::from(norm)
}

// "reads that lower the norm": whether reads by a line do.
pub fn lowers(sheet: &[u8], card: Card, norms: &[u32; 32], line: usize) -> bool
    requires accepts { Accepts sheet.now card norms.now }
    requires line_lt_lines { line < card.lines }
    ensures { result ≡ lowers_norm sheet.now line }
{
    left_norm(sheet, card, norms, line) < own_norm(sheet, card, norms, line)
}

// "g is the greatest of 0 and, over all lines [of reached kinds], the norm left minus the kind's norm."
pub fn gain(sheet: &[u8], card: Card, norms: &[u32; 32]) -> u64
    requires { Accepts sheet.now card norms.now }
    ensures { result ≡ base.gain (card_of sheet.now) }
{
    let mut most = 0;
    for j in (0..card.lines).rev() {
        most = line_gain(sheet, card, norms, j).max(most);
    }
    most
}

// The norm that a line leaves minus its kind's norm, or 0 where it leaves less; 0 for a line of a kind that is out, which has no norm here, and whose counts are not read.
fn line_gain(sheet: &[u8], card: Card, norms: &[u32; 32], line: usize) -> u64
    requires accepts { Accepts sheet.now card norms.now }
    requires line_lt_lines { line < card.lines }
    ensures { result ≡ line_gain sheet.now line }
{
    let own = own_norm(sheet, card, norms, line);
    if own == 0 {
        return 0;
    }
    let left = left_norm(sheet, card, norms, line);
    if own < left { left - own } else { 0 }
}
