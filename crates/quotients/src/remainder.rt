// What is left where counts have gone into counts as often as they do.
ghost use Rattle.std.specs.Prelude.{◌≡◌, ◌≤◌, length};
ghost use Rattle.model.specs.Finite.{list_from};
ghost use Rattle.model.specs.Field.{at};
ghost use Rattle.model.specs.Squads.{times_in, remainder};
ghost use Rattle.model.specs.Answer.{written};

// "some remainder": what is left of the whole's counts, to the front of the buffer.
pub fn write_remainder(times: u64, whole: &[u64], squad: &[u64], buffer: &mut [u64])
    requires whole_len { length whole.now ≡ length squad.now }
    requires whole_in_bounds { length whole.now ≤ length buffer.old }
    requires times_value { times ≡ times_in (length whole.now) (at whole.now) (at squad.now) }
    ensures { buffer.new ≡ written (list_from (remainder (length whole.now) (at whole.now) (at squad.now)) 0 (length whole.now)) buffer.old }
{
    for kind in 0..whole.len() {
        buffer[kind] = whole[kind] - times * squad[kind];
    }
}
