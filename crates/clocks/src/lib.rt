// The sender's clock (document 02, W-201; document 002, 3.3.2): what a monitor saves of a sender's clock readings, and the test that finds a clock
// that has jumped. Every function here is proved, and the crate assumes nothing of its own.
#![tactic(auto)]

ghost use Rattle.std.specs.Prelude.{◌≡◌, ◌+◌, ◌*◌, ◌≤◌, ◌<◌, eqb, ltb};
ghost use Rattle.clocks.specs.Clocks.{strays, fails, ahead as the_ahead, three, violates, saving};
ghost use Rattle.clocks.specs.Clocks.{ahead_of, behind_of, Fits, triple_limit, small, saved_ok, readings_fail};
ghost use Rattle.clocks.specs.Places.{blank};
ghost use Rattle.clocks.specs.code.Drifts.{drifts_most};
ghost use Rattle.clocks.specs.code.Three.{turned, three_of, three_blank, FitsThree};

pub mod place;

// A sender's clock reading, the own reading beside it, and the half width.
#[derive(Clone, Copy, Debug, PartialEq, Eq)]
pub struct Triple {
    pub there: u64,
    pub here: u64,
    pub half: u64,
}

// The readings that the host gives with a receipt: a triple and the sender's drift.
#[derive(Clone, Copy, Debug, PartialEq, Eq)]
pub struct Readings {
    pub triple: Triple,
    pub drift: u32,
}

// What is saved of a sender: the previous triple, and those of the largest a − b + w and b − a + w.
#[derive(Clone, Copy, Debug, PartialEq, Eq)]
pub struct Saved {
    pub previous: Triple,
    pub ahead: Triple,
    pub behind: Triple,
}

// The first number that no triple can have, 2^43, and the greatest drift of a sender.
pub const TRIPLE_LIMIT: u64 = 8_796_093_022_208;

pub const DRIFT_MOST: u32 = 1_000;

impl Readings {
    // Whether these cannot be taken: a number at 2^43 or more, or a drift above 1,000.
    pub fn fail(self) -> bool
        ensures { result ≡ fails self.triple self.drift }
    {
        (TRIPLE_LIMIT <= self.triple.there)
            | ((TRIPLE_LIMIT <= self.triple.here)
                | ((TRIPLE_LIMIT <= self.triple.half) | (DRIFT_MOST < self.drift)))
    }
}

// The same of what the host gives with a receipt: readings, or none.
#[tactic(auto, unfolding(crate::specs::Clocks::readings_fail))]
pub fn readings_fail(readings: Option<Readings>) -> bool
    ensures { result ≡ readings_fail readings }
{
    readings.is_some_and(Readings::fail)
}

// How far two clocks of these drifts, added, can be off each other after `gap`, where their readings are within these half widths, added: in
// millionths of a microsecond. It needs all of 64 bits.
fn bound(drifts: u64, gap: u64, halves: u64) -> u64
    requires { (drifts ≤ drifts_most) × (gap < triple_limit) × (halves < triple_limit + triple_limit) }
    ensures { result ≡ drifts * gap + 1_000_000 * halves }
{
    drifts * gap + 1_000_000 * halves
}

impl Triple {
    // The numbers of the triple or-ed together: zero where each is zero, and below 2^43 where each is.
    fn bits(self) -> u64
        ensures { (eqb result 0 ≡ blank self) × (ltb result triple_limit ≡ small self) }
    {
        self.there | (self.here | self.half)
    }

    // Test (20) of a new triple against this saved one: whether they are further off each other than two clocks of these drifts, added, can be.
    #[tactic(auto, unfolding(crate::specs::Clocks::strays))]
    fn strays(self, drifts: u64, new: Triple) -> bool
        requires { (drifts ≤ drifts_most) × Fits self × Fits new }
        ensures { result ≡ strays drifts self new }
    {
        let passed = self.here.abs_diff(new.here);
        let off = (passed + self.there).abs_diff(new.there);
        let gap = self.there.abs_diff(new.there);
        bound(drifts, gap, self.half + new.half) < 1_000_000 * off
    }

    // The triple as the other clock gives it.
    fn turned(self) -> Triple
        ensures { result ≡ turned self }
    {
        Triple {
            there: self.here,
            here: self.there,
            half: self.half,
        }
    }

    // Whether the new triple has a larger a − b + w than this one: compared without a difference, which could lie below 0. Of turned triples it
    // compares b − a + w.
    fn is_behind(self, new: Triple) -> bool
        requires { Fits self × Fits new }
        ensures { result ≡ the_ahead self new }
    {
        self.there + self.half + new.here < new.there + new.half + self.here
    }

    // The one of two triples, this earlier one and a new one, that has the larger a − b + w; the earlier where they are equal.
    #[tactic(auto, unfolding(crate::specs::Clocks::ahead_of))]
    pub fn further_ahead(self, new: Triple) -> Triple
        requires { Fits self × Fits new }
        ensures { result ≡ ahead_of self new }
    {
        if self.is_behind(new) { new } else { self }
    }

    // The one of two triples, this earlier one and a new one, that has the larger b − a + w; the earlier where they are equal.
    #[tactic(auto, unfolding(crate::specs::Clocks::behind_of))]
    pub fn further_behind(self, new: Triple) -> Triple
        requires { Fits self × Fits new }
        ensures { result ≡ behind_of self new }
    {
        if self.turned().is_behind(new.turned()) {
            new
        } else {
            self
        }
    }
}

impl Saved {
    // What is saved after a sender's first triple.
    pub fn first(new: Triple) -> Saved
        ensures { three_of result ≡ three new new new }
    {
        Saved {
            previous: new,
            ahead: new,
            behind: new,
        }
    }

    // What is saved after one triple more.
    #[tactic(auto, unfolding(crate::specs::Clocks::saving))]
    pub fn saving(&self, new: Triple) -> Saved
        requires { FitsThree self.now × Fits new }
        ensures { three_of result ≡ saving (three_of self.now) new }
    {
        Saved {
            previous: new,
            ahead: self.ahead.further_ahead(new),
            behind: self.behind.further_behind(new),
        }
    }

    // The numbers of the three triples or-ed together: zero where each is zero, and below 2^43 where each is.
    fn bits(&self) -> u64
        ensures { (eqb result 0 ≡ three_blank self.now) × (ltb result triple_limit ≡ saved_ok (three_of self.now)) }
    {
        self.previous.bits() | (self.ahead.bits() | self.behind.bits())
    }

    // Whether a new triple strays from one of the three, where own and sender's drift are added.
    #[tactic(auto, unfolding(crate::specs::Clocks::violates))]
    pub fn violated(&self, drifts: u64, new: Triple) -> bool
        requires { (drifts ≤ drifts_most) × FitsThree self.now × Fits new }
        ensures { result ≡ violates drifts (three_of self.now) new }
    {
        self.previous.strays(drifts, new)
            | (self.ahead.strays(drifts, new) | self.behind.strays(drifts, new))
    }
}
