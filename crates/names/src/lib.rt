// Sets of names as 29-bit masks (document 01, "Instants, names, predicates"): name n is the bit of value 2^n.
// Every function here is proved, and the crate assumes nothing of its own.
#![tactic(auto)]

ghost use Rattle.std.specs.Prelude.{◌≡◌, ◌<◌, ◌≤◌, ◌^◌, leb};
ghost use Rattle.std.specs.Int.Count.{ones};
ghost use Rattle.names.specs.Sets.{subset, set_union, has, minus};
ghost use Rattle.names.specs.code.Parts.{shared, others, least_name};

// The mask of no set: more than every set of names.
pub const NO_SET: u32 = 536_870_912;

// Whether each name of t is in s.
#[tactic(auto, unfolding(crate::specs::Sets::subset))]
pub fn subset(t: u32, s: u32) -> bool
    ensures { result ≡ subset t s }
{
    t & s == t
}

// The names of s and those of t.
#[tactic(auto, unfolding(crate::specs::Sets::set_union))]
pub fn union(s: u32, t: u32) -> u32
    ensures { result ≡ set_union s t }
{
    s | t
}

// The names of s that are in t.
#[tactic(auto, unfolding(crate::specs::code::Parts::shared))]
pub fn shared(s: u32, t: u32) -> u32
    ensures { result ≡ shared s t }
{
    s & t
}

// The names of s that are not in t.
#[tactic(auto, unfolding(crate::specs::Sets::minus))]
pub fn minus(s: u32, t: u32) -> u32
    ensures { result ≡ minus s t }
{
    s - (s & t)
}

// The least name of s as a set of its own.
#[tactic(auto, unfolding(crate::specs::code::Parts::least_name))]
pub fn least_name(s: u32) -> u32
    requires { 0 < s }
    ensures { result ≡ least_name s }
{
    s - (s & (s - 1))
}

// How many names s holds: it decides degrees, limits and the fewest failures.
pub fn count(s: u32) -> u32
    ensures { (result ≡ ones s) × (result ≤ 32) }
{
    u32::count_ones(s)
}

// Whether s holds at most one name.
pub fn at_most_one(s: u32) -> bool
    ensures { result ≡ leb (ones s) 1 }
{
    count(s) <= 1
}

// The set of the name n alone.
pub fn single(n: u32) -> u32
    requires { n < 32 }
    ensures { result ≡ 2 ^ n }
{
    1 << n
}

// All names but n.
#[tactic(auto, unfolding(crate::specs::code::Parts::others))]
pub fn others(n: u32) -> u32
    requires { n < 32 }
    ensures { result ≡ others n }
{
    minus(NO_SET - 1, single(n))
}

// Whether s holds the name n: the own-name test.
#[tactic(auto, unfolding(crate::specs::Sets::has))]
pub fn has(n: u32, s: u32) -> bool
    requires { n < 32 }
    ensures { result ≡ has n s }
{
    s & single(n) != 0
}
