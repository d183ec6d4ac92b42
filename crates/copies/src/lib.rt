// Copies of numbers: to the front of a lent buffer, and as numbers of another width.
#![tactic(auto)]

ghost use Rattle.std.specs.Prelude.{List, ◌≡◌, ◌++◌, ℕ, ◌^◌, ◌≤◌, ◌<◌, length, take, drop, map};
ghost use Rattle.std.proofs.Common.{rules};
ghost use Rattle.std.proofs.lemmas.Grind.{common_steps};
ghost use Rattle.model.specs.Field.{at};
ghost use Rattle.model.specs.Answer.{written};

// The values to the front of a lent buffer; what it holds past them stays.
pub fn write<T: Copy>(values: &[T], buffer: &mut [T])
    requires { length values.now ≤ length buffer.old }
    ensures { buffer.new ≡ values.now ++ drop (length values.now) buffer.old }
{
    buffer[..values.len()].copy_from_slice(values);
}

// The values, each of which has 32 bits at most, to the front of a lent buffer; what it holds past them stays.
pub fn narrow(values: &[usize], buffer: &mut [u32])
    requires values_in_bounds { length values.now ≤ length buffer.old }
    requires by_index { (i : ℕ) → i < length values.now → at values.now i < 2 ^ 32 }
    ensures { buffer.new ≡ written values.now buffer.old }
{
    for i in 0..values.len() {
        buffer[i] = values[i] as u32;
    }
}

// A count of fewer bits than 64.
pub trait Count: Copy {
    // The numbers that counts are, and the number that one is.
    ghost numbers: { List Self → List ℕ };

    ghost number: { Self → ℕ };

    // As a number of 64 bits.
    fn wide(self) -> u64
        ensures { result ≡ number self };

    // The numbers are those of the counts, one by one.
    ghost one_by_one: { (counts : List Self) → numbers counts ≡ map number counts };
}

impl Count for u16 {
    ghost numbers = { λ counts. counts };

    ghost number = { λ count. count };

    ghost one_by_one = { Prim.search (rules, common_steps) };

    fn wide(self) -> u64 {
        u64::from(self)
    }
}

impl Count for u32 {
    ghost numbers = { λ counts. counts };

    ghost number = { λ count. count };

    ghost one_by_one = { Prim.search (rules, common_steps) };

    fn wide(self) -> u64 {
        u64::from(self)
    }
}

// The values as numbers of 64 bits: they are the first of the array.
pub fn widen<T: Count, const N: usize>(values: &[T]) -> [u64; N]
    requires { length values.now ≤ N }
    ensures { take (length values.now) result ≡ T.numbers values.now }
{
    let mut wide = [0u64; N];
    for i in 0..values.len() {
        wide[i] = values[i].wide();
    }
    wide
}
