// Marks, one to a kind: kinds are marked by counts, and taken in number order.
ghost use Rattle.std.specs.Prelude.{IsTrue, MatchOption, map, ◌↔◌, ℕ, ◌≤◌, ◌<◌, length};
ghost use Rattle.model.specs.Field.{at};
ghost use Rattle.reach.specs.Marks.{Adds, AllDone, Next};

// A count of tokens, of either width: a line's is a byte, a field's has 32 bits.
pub trait Count: Copy {
    // The tokens that it counts.
    ghost tokens: { Self → ℕ };

    // Whether there are tokens.
    fn some(self) -> bool
        ensures { IsTrue result ↔ 0 < tokens self };
}

impl Count for u8 {
    ghost tokens = { λ count. count };

    fn some(self) -> bool {
        0u8 < self
    }
}

impl Count for u32 {
    ghost tokens = { λ count. count };

    fn some(self) -> bool {
        0u32 < self
    }
}

// Marks the kinds of which the counts have tokens.
pub fn mark<T: Count>(counts: &[T], marks: &mut [bool])
    requires { length counts.now ≤ length marks.old }
    ensures { Adds (λ k. 0 < at (map T.tokens counts.now) k) marks.old marks.new }
{
    for (kind, count) in counts.iter().enumerate() {
        if count.some() {
            marks[kind] = true;
        }
    }
}

// The first kind that is marked and not done, if any is.
pub fn next_kind(marks: &[bool], done: &[bool]) -> Option<usize>
    requires { length marks.now ≤ length done.now }
    ensures { MatchOption result (AllDone marks.now done.now) (λ kind. Next marks.now done.now kind) }
{
    marks
        .iter()
        .zip(done)
        .position(|(marked, done)| *marked && !*done)
}
