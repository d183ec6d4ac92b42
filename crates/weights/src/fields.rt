// The norm of a field, from the norms of the kinds; its tokens.
ghost use Rattle.std.specs.Prelude.{◌≡◌, ◌≤◌, ◌<◌, ◌^◌};
ghost use Rattle.model.specs.Field.{weigh, at, tokens};
ghost use Rattle.model.specs.Limits.{most_kinds};

// "The norm of a field is the fewest reads to the empty field", for a field of this many kinds whose norm fits 64 bits.
pub fn field_norm(kinds: usize, norms: [u32; 32], field: [u32; 32]) -> u64
    requires kinds_le_most_kinds { kinds ≤ most_kinds }
    requires field_bound { weigh kinds (at norms) (at field) < 2 ^ 64 }
    ensures { result ≡ weigh kinds (at norms) (at field) }
{
    let mut sum: u64 = 0;
    for kind in 0..kinds {
        let tokens = field[kind];
        let norm = norms[kind];
        sum += u64::from(tokens) * u64::from(norm);
    }
    sum
}

// The tokens of a field of this many kinds: its norm where each kind's is 1.
pub fn field_tokens(kinds: usize, field: [u32; 32]) -> u64
    requires kinds_le_most_kinds { kinds ≤ most_kinds }
    requires field_bound { tokens kinds (at field) < 2 ^ 64 }
    ensures { result ≡ tokens kinds (at field) }
{
    field_norm(kinds, [1u32; 32], field)
}
