// Keys of ends (document 02, W-205): one number for an end that has two, so that the search compares numbers. Where the ends of a state lie near each
// other, the keys are the counts of millionths from the first whole microsecond on; else a key is 64 for each whole microsecond and, behind them, the
// rank of the millionths among all that the state holds.
ghost use Rattle.std.specs.Prelude.{◌≡◌, false, ℕ, ◌+◌, ◌*◌, ◌^◌, ◌≤◌, ◌<◌, length};
ghost use Rattle.numbers.specs.Numbers.{tab};
ghost use Rattle.ends.specs.declared.End.{End};
ghost use Rattle.ends.specs.Ends.{count_of, Split};
ghost use Rattle.state.specs.Model.{last_whole};
ghost use Rattle.state.specs.Layout.{held_count, state_size, data_most, entries_most};
ghost use Rattle.state.specs.code.Tables.{ends_at};
ghost use Rattle.claims.specs.code.Keys.{base_of, top_of, count_limit, countable, scale_of, below, parts_most};
ghost use Rattle.claims.specs.code.Keys.{millionths_at, parts_of, count_from, rank_key, start_of, step_of, down_by, up_by, key_of};
ghost use Rattle.claims.specs.code.Tables.{claim_span};

use ends::End;
use search::rows::Span;
use state::sound::InForm;

// So many millionths are ranked: those of both ends of 16 data, and zeros behind them.
const PARTS_MOST: usize = 36;

// What a whole microsecond is in a key with a rank, and the last of these keys.
const RANK_STEP: u64 = 64;

pub const LAST: u64 = state::LAST_WHOLE * RANK_STEP;

// Fewer whole microseconds, 2^44, have a count of millionths within 64 bits.
const COUNT_LIMIT: u64 = 17_592_186_044_416;

// How keys are made and read: by counts or by ranks, and the whole microsecond that they start from. Ranks are a scale too, so this is no Option.
#[derive(Clone, Copy, Debug, PartialEq, Eq)]
pub enum Scale {
    Counts(u64),
    Ranks(u64),
}

// From the least whole microsecond of the held data's left ends to the greatest of their right ends.
#[derive(Clone, Copy)]
struct Reach {
    first: u64,
    last: u64,
}

// How far the held data reach. Counts start at the first microsecond, since clocks may count theirs from long ago.
fn reach_of(s: InForm<'_>) -> Reach
    ensures { (result.first ≡ base_of s.entry.bytes.now) × (result.last ≡ top_of s.entry.bytes.now) × (result.first ≤ last_whole) }
{
    let mut first = state::LAST_WHOLE;
    let mut last: u64 = 0;
    let h = state::held(s.bytes);
    for i in 0..h {
        let at = state::DATA_AT + i * state::DATUM_SIZE;
        first = first.min(numbers::get64(s.bytes, at));
        last = last.max(numbers::get64(s.bytes, at + state::RIGHT_IN));
    }
    Reach { first, last }
}

// Reads the millionths of the held data, the left end's and the right end's of each.
fn get_parts(s: &[u8], parts: &mut [u32])
    requires { (state_size ≤ length s.now) × (length parts.old ≤ data_most * 2) }
    ensures { parts.new ≡ tab (length parts.old) (millionths_at s.now) }
{
    for (j, part) in parts.iter_mut().enumerate() {
        let at = state::DATA_AT + j / 2 * state::DATUM_SIZE + state::LEFT_MILLIONTHS_IN;
        *part = numbers::get32(s, at + j % 2 * 4);
    }
}

// How many of the parts are less than x.
// It counts in the 32 bits that are used: `count` gives a usize, which would have to be shown small.
fn rank(parts: &[u32; PARTS_MOST], x: u32) -> u32
    ensures { (result ≡ below parts_most parts.now x) × (result ≤ parts_most) }
{
    let mut r: u32 = 0;
    for part in parts {
        if *part < x {
            r += 1;
        }
    }
    r
}

// The keys of an entry, so that no instant is between them.
fn entry_keys() -> Span
    ensures { (result.left ≡ 1) × (result.right ≡ 0) }
{
    Span { left: 1, right: 0 }
}

// The count of an end from the base on.
fn count_from(base: u64, e: End) -> u64
    requires { Split e × (base ≤ e.whole) × (e.whole < base + count_limit) }
    ensures { result ≡ count_from base (count_of e) }
{
    (e.whole - base) * ends::MILLION + e.millionths
}

// The key of an end by its rank.
fn rank_key(parts: &[u32; PARTS_MOST], e: End) -> u64
    requires { Split e × (e.whole ≤ last_whole) }
    ensures { result ≡ rank_key parts.now (count_of e) }
{
    e.whole * RANK_STEP + rank(parts, e.millionths as u32) as u64
}

// Makes the keys of all claims, of n entries and then of the held data, by a way to make the key of an end.
fn put_keys<F: Fn(End) -> u64>(s: InForm<'_>, n: usize, key: F, ends: &mut [Span])
    requires room { length ends.old ≡ n + held_count s.bytes.now }
    requires callable { (i : ℕ) → i < held_count s.bytes.now → F.pre key (ends_at s.bytes.now i).left × F.pre key (ends_at s.bytes.now i).right }
    requires keyed { (e : End) (r : ℕ) → F.post key e r → r ≡ key_of s.bytes.now (count_of e) }
    ensures { ends.new ≡ tab (length ends.old) (claim_span (key_of s.entry.bytes.now) s.entry.bytes.now n) }
{
    for (i, span) in ends.iter_mut().enumerate() {
        if i < n {
            *span = entry_keys();
        } else {
            let held = state::intervals::get(s.bytes, i - n);
            *span = Span {
                left: key(held.left),
                right: key(held.right),
            };
        }
    }
}

// The millionths of all held ends, and zeros behind them.
fn parts_of(s: InForm<'_>) -> [u32; PARTS_MOST]
    ensures { result ≡ parts_of s.entry.bytes.now }
{
    let mut parts = [0u32; PARTS_MOST];
    get_parts(s.bytes, &mut parts[..state::held(s.bytes) * 2]);
    parts
}

// Makes the keys of the ends of all claims: of n entries, and then of the held data. Answers their scale.
pub fn get_ends(s: InForm<'_>, n: usize, ends: &mut [Span]) -> Scale
    requires { (n ≤ entries_most) × (length ends.old ≡ n + held_count s.bytes.now) }
    ensures value { result ≡ scale_of s.entry.bytes.now }
    ensures ends_after { ends.new ≡ tab (length ends.old) (claim_span (key_of s.entry.bytes.now) s.entry.bytes.now n) }
{
    let held = reach_of(s);
    if held.last < held.first + COUNT_LIMIT {
        put_keys(s, n, |e: End| count_from(held.first, e), ends);
        return Scale::Counts(held.first);
    }
    let parts = parts_of(s);
    put_keys(s, n, |e: End| rank_key(&parts, e), ends);
    Scale::Ranks(0)
}

// What a whole microsecond is in a key.
fn step(scale: Scale) -> u64
    ensures { result ≡ step_of scale }
{
    match scale {
        Scale::Counts(_) => ends::MILLION,
        Scale::Ranks(_) => RANK_STEP,
    }
}

// The whole microseconds that a left key tells: it rounds down.
pub fn down(scale: Scale, key: u64) -> u64
    requires { start_of scale ≤ last_whole }
    ensures { result ≡ down_by scale key }
{
    match scale {
        Scale::Counts(base) => base + key / ends::MILLION,
        Scale::Ranks(base) => base + key / RANK_STEP,
    }
}

// The whole microseconds that a right key tells: it rounds up.
pub fn up(scale: Scale, key: u64) -> u64
    requires { (start_of scale ≤ last_whole) × (key + step_of scale ≤ 2 ^ 64) }
    ensures { result ≡ up_by scale key }
{
    down(scale, key + (step(scale) - 1))
}
