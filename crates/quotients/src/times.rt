// How often counts go into counts.
ghost use Rattle.std.specs.Prelude.{◌≡◌, ◌<◌, length};
ghost use Rattle.model.specs.Field.{at, tokens};
ghost use Rattle.model.specs.Squads.{times_in};
ghost use Rattle.quotients.specs.Kind.{times_up_to};

// "the largest q": how often the squad's counts, which are not all 0, go into the whole's.
pub fn times_in(whole: &[u64], squad: &[u64]) -> u64
    requires whole_len { length whole.now ≡ length squad.now }
    requires nonzero { 0 < tokens (length squad.now) (at squad.now) }
    ensures { result ≡ times_in (length whole.now) (at whole.now) (at squad.now) }
{
    let mut times = u64::MAX;
    for (whole, squad) in whole.iter().zip(squad) {
        times = times_up_to(times, *whole, *squad);
    }
    times
}

// How often the squad's count of one kind goes into the whole's, up to a number; that number where the squad has none of the kind.
fn times_up_to(most: u64, whole: u64, squad: u64) -> u64
    ensures { result ≡ times_up_to most whole squad }
{
    if squad == 0 {
        return most;
    }
    most.min(whole / squad)
}
