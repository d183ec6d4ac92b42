// How often counts go into counts, and what is left.
ghost use Rattle.std.specs.Prelude.{◌≡◌, ◌≤◌, ◌<◌, length};
ghost use Rattle.model.specs.Finite.{list_from};
ghost use Rattle.model.specs.Field.{at, tokens};
ghost use Rattle.model.specs.Squads.{times_in, remainder};
ghost use Rattle.model.specs.Answer.{written};

use crate::remainder::write_remainder;
use crate::times::times_in;

// "the largest q" of a squad's counts, which are not all 0, in the whole's; what is left goes to the front of the buffer.
pub fn divide(whole: &[u64], squad: &[u64], buffer: &mut [u64]) -> u64
    requires whole_len { length whole.now ≡ length squad.now }
    requires nonzero { 0 < tokens (length squad.now) (at squad.now) }
    requires whole_in_bounds { length whole.now ≤ length buffer.old }
    ensures value { result ≡ times_in (length whole.now) (at whole.now) (at squad.now) }
    ensures buffer_after { buffer.new ≡ written (list_from (remainder (length whole.now) (at whole.now) (at squad.now)) 0 (length whole.now)) buffer.old }
{
    let times = times_in(whole, squad);
    write_remainder(times, whole, squad, buffer);
    times
}
