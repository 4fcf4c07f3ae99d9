ghost use Rattle.std.specs.Prelude.{◌<◌};

/// Numbers that look random, and are the same again for the same seed.
#[derive(Drop)]
pub struct Dice {
    state: u64,
}

impl Dice {
    /// The numbers of a seed, from the first on.
    pub fn of(seed: u64) -> Dice {
        Dice { state: seed }
    }

    /// A number below this one.
    pub fn below(&mut self, count: u64) -> u64
        requires { 0 < count }
        ensures { result < count }
    {
        self.state = self.state.wrapping_add(0x9e37_79b9_7f4a_7c15);
        let spread = self.state;
        let mixed = (spread ^ (spread >> 30)).wrapping_mul(0xbf58_476d_1ce4_e5b9);
        let mixed = (mixed ^ (mixed >> 27)).wrapping_mul(0x94d0_49bb_1331_11eb);
        (mixed ^ (mixed >> 31)) % count
    }
}
