// A row taken away from counts.
ghost use Rattle.std.specs.Prelude.{◌≡◌, ℕ, ◌≤◌, length, MatchOption};
ghost use Rattle.model.specs.Field.{◌⊕◌, at};
ghost use Rattle.model.specs.Limits.{most_kinds};

// The counts less a row, where no count of the row is over theirs; else none.
pub fn less_row(counts: &[u64], row: &[u64]) -> Option<[u64; 32]>
    requires { (length counts.now ≡ most_kinds) × (length row.now ≡ most_kinds) }
    ensures { MatchOption result (¬ ((j : ℕ) → at row.now j ≤ at counts.now j)) (λ left. at left ⊕ at row.now ≡ at counts.now) }
{
    let mut left = [0u64; 32];
    for kind in 0..32 {
        let here = counts[kind];
        let less = row[kind];
        if here < less {
            return None;
        }
        left[kind] = here - less;
    }
    Some(left)
}
