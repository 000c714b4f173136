// Ends with their millionths (document 02, W-205): an end is two numbers, since its count of millionths passes 64 bits. The whole microseconds are
// compared first. Every function here is proved, and the crate assumes nothing of its own.
#![tactic(auto)]

ghost use Rattle.std.specs.Prelude.{◌≡◌, ◌+◌, ◌<◌, ◌^◌, min, max, ltb};
ghost use Rattle.ends.specs.Ends.{count_of, Split, up};

// How many millionths a microsecond has.
pub const MILLION: u64 = 1_000_000;

// An end, in whole microseconds and millionths of one: in that order they decide which of two ends is the earlier.
#[derive(Clone, Copy, PartialEq, Eq, PartialOrd, Ord)]
pub struct End {
    pub whole: u64,
    pub millionths: u64,
}

// The two ends of an interval.
#[derive(Clone, Copy)]
pub struct Ends {
    pub left: End,
    pub right: End,
}

// Whether a precedes b.
pub fn precedes(a: End, b: End) -> bool
    requires { Split a × Split b }
    ensures { result ≡ ltb (count_of a) (count_of b) }
{
    a < b
}

// The earlier of two ends.
pub fn earlier(a: End, b: End) -> End
    requires { Split a × Split b }
    ensures { (count_of result ≡ min (count_of a) (count_of b)) × Split result }
{
    a.min(b)
}

// The later of two ends.
pub fn later(a: End, b: End) -> End
    requires { Split a × Split b }
    ensures { (count_of result ≡ max (count_of a) (count_of b)) × Split result }
{
    a.max(b)
}

// The end that lies so much behind a. The millionths carry a microsecond over once they are as many as it has.
pub fn plus(a: End, by: End) -> End
    requires { Split a × Split by × (a.whole + by.whole < 2 ^ 63) }
    ensures { (count_of result ≡ count_of a + count_of by) × Split result }
{
    let whole = a.whole + by.whole;
    let millionths = a.millionths + by.millionths;
    if MILLION <= millionths {
        return End {
            whole: whole + 1,
            millionths: millionths - MILLION,
        };
    }
    End { whole, millionths }
}

// The first whole microsecond that is not before the end.
pub fn round_up(e: End) -> u64
    requires { Split e × (e.whole < 2 ^ 63) }
    ensures { result ≡ up (count_of e) }
{
    if 0 < e.millionths {
        return e.whole + 1;
    }
    e.whole
}
