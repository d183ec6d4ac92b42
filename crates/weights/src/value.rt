// The counts of a line, as a part of the sheet's bytes, against the values of the kinds.
ghost use Rattle.std.specs.Prelude.{◌≡◌, suc, min, ◌≤◌, ◌<◌, ◌^◌, length};
ghost use Rattle.model.specs.Field.{weigh, at};
ghost use Rattle.model.specs.Limits.{most_kinds, norm_limit};
ghost use Rattle.weights.specs.Value.{AtMost, read_value, lesser_of};

use sheet::Card;

// The sum, over the kinds, of count times value.
pub fn weight(values: &[u32; 32], counts: &[u8]) -> u64
    requires counts_len_bound { length counts.now ≤ most_kinds }
    requires counts_bound { weigh (length counts.now) (at values.now) (at counts.now) < 2 ^ 64 }
    ensures { result ≡ weigh (length counts.now) (at values.now) (at counts.now) }
{
    let mut sum: u64 = 0;
    for (i, count) in counts.iter().enumerate() {
        let value = values[i];
        sum += u64::from(*count) * u64::from(value);
    }
    sum
}

// One read and the values of the tokens it leaves, cut one past the limit; 0 where a kind that it leaves has no value.
pub fn read_value(values: &[u32; 32], counts: &[u8]) -> u32
    requires counts_len_bound { length counts.now ≤ most_kinds }
    requires at_most { AtMost (suc norm_limit) values.now }
    ensures { result ≡ min (read_value (length counts.now) (at values.now) (at counts.now)) (suc norm_limit) }
{
    let mut sum: u64 = 0;
    for (i, count) in counts.iter().enumerate() {
        if 0 < *count {
            let value = values[i];
            if value == 0 {
                return 0;
            }
            sum += u64::from(*count) * u64::from(value);
        }
    }
    if sum < u64::from(Card::NORM) {
        return (sum + 1) as u32;
    }
    Card::NORM + 1
}

// The lesser of two values, where 0 is none: no Option, since an array of values holds 32 of them and is read in every turn.
pub fn lesser(first: u32, second: u32) -> u32
    ensures { result ≡ lesser_of first second }
{
    if first == 0 {
        return second;
    }
    if second == 0 {
        return first;
    }
    if first < second { first } else { second }
}
