//! Numbers drawn from a seed.
ghost use Rattle.std.specs.Prelude.{◌≡◌, ◌<◌};
ghost use Rattle.big_programs.specs.Draws.{drawn, after_draw};

/// A linear congruential generator with the constants of C's example of `rand` (ISO C99 7.20.2.2, paragraph 5), whose
/// state has 31 bits after the first draw.
#[derive(Debug, Drop)]
pub(crate) struct Generator {
    pub(crate) state: u32,
}

impl Generator {
    /// A generator that begins with the seed.
    pub(crate) fn new(seed: u32) -> Generator
        ensures { result.state ≡ seed }
    {
        Generator { state: seed }
    }

    /// A number below the bound.
    pub(crate) fn draw(&mut self, bound: u32) -> u32
        requires { 0 < bound }
        ensures number { result ≡ drawn bound self.old.state }
        ensures state { self.new.state ≡ after_draw self.old.state }
        ensures below { result < bound }
    {
        let next = (u64::from(self.state) * 1_103_515_245 + 12_345) % 2_147_483_648;
        self.state = next as u32;
        self.state / 65_536 % bound
    }
}
