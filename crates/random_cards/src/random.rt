// Numbers that a seed gives. A number is asked for by its place, so that nothing is carried from one to the next.
ghost use Rattle.std.specs.Prelude.{◌<◌};

// The middle of a product, in which every bit of a number of 32 bits has its part.
fn mix(number: u64) -> u64
    ensures { result < 4294967296 }
{
    (number % 4294967296 * 2654435761 + 974711) / 65536 % 4294967296
}

// The number below a limit that the seed has at a place.
pub fn pick(seed: u64, place: usize, limit: usize) -> usize
    requires { 0 < limit }
    ensures { result < limit }
{
    let p = (place % 65536) as u64;
    let x = mix(mix(mix(seed) + mix(seed / 4294967296 + 1)) + p);
    (mix(mix(x)) / 256) as usize % limit
}

// The greater of two numbers below a limit that the seed has: one that is rarely small.
pub fn pick_high(seed: u64, place: usize, limit: usize) -> usize
    requires { (place < 1000) × (0 < limit) }
    ensures { result < limit }
{
    pick(seed, place, limit).max(pick(seed, place + 1000, limit))
}
