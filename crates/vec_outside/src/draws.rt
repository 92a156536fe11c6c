// Numbers that look random, from a seed.
ghost use Rattle.std.specs.Prelude.{◌≤◌};

/// The generator SplitMix64: a counter in steps of an odd number, with its bits mixed.
#[derive(Drop)]
pub struct Draws {
    state: u64,
}

impl Draws {
    /// It promises nothing: what is drawn is free, and only its bound is used.
    pub fn from_seed(seed: u64) -> Draws {
        Draws { state: seed }
    }

    fn next(&mut self) -> u64 {
        self.state = self.state.wrapping_add(0x9E37_79B9_7F4A_7C15);
        let once = (self.state ^ (self.state >> 30)).wrapping_mul(0xBF58_476D_1CE4_E5B9);
        let twice = (once ^ (once >> 27)).wrapping_mul(0x94D0_49BB_1331_11EB);
        twice ^ (twice >> 31)
    }

    /// A number from 0 to this one.
    pub fn up_to(&mut self, most: usize) -> usize
        ensures { result ≤ most }
    {
        if most == usize::MAX {
            return self.next() as usize;
        }
        (self.next() % (most as u64 + 1)) as usize
    }
}
