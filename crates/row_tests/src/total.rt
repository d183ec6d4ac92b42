// What related fields share beside their norm: in the finer sense their total.
ghost use Rattle.std.specs.Prelude.{◌≡◌, true, ◌↔◌, ◌≤◌, length};
ghost use Rattle.model.specs.Field.{at, tokens};
ghost use Rattle.model.specs.Limits.{most_kinds};
ghost use Rattle.tables.specs.Senses.{sense_of, SharesTotal};

use tables::sense::Sense;

// The tokens of a row.
fn tokens_of(row: &[u32]) -> u64
    requires { length row.now ≤ most_kinds }
    ensures { result ≡ tokens (length row.now) (at row.now) }
{
    row.iter().map(|count| u64::from(*count)).sum()
}

// Whether a row shares with its kind what the sense asks for beside the norm: in the finer one it has as many tokens, one.
pub fn shares_total(sense: Sense, row: &[u32]) -> bool
    requires { length row.now ≡ most_kinds }
    ensures { (result ≡ true) ↔ SharesTotal (sense_of sense) (at row.now) }
{
    match sense {
        Sense::Plain => true,
        Sense::Finer => tokens_of(row) == 1,
    }
}
