// The least and the greatest delay of a channel.
ghost use Rattle.std.specs.Prelude.{◌≡◌};
ghost use Rattle.engine.specs.Refusals.{delays_fail};

// A channel's least and greatest delay in microseconds.
#[derive(Clone, Copy, Debug, PartialEq, Eq)]
pub struct Delays {
    pub least: u64,
    pub greatest: u64,
}

impl Delays {
    // Whether these cannot be taken: the least above the greatest, or that above the longest delay.
    pub fn fail(self) -> bool
        ensures { result ≡ delays_fail self.least self.greatest }
    {
        (self.greatest < self.least) | (engine::DELAY_MOST < self.greatest)
    }
}
