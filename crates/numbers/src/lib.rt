// Little-endian numbers in byte slices (document 01, "State bytes"): the least byte comes first, and four bytes make a word.
// Every function here is proved, and the crate assumes nothing of its own.
#![tactic(auto)]

ghost use Rattle.std.specs.Prelude.{◌≡◌, ◌++◌, ◌+◌, ◌*◌, ◌≤◌, ◌<◌, ◌^◌, length};
ghost use Rattle.numbers.specs.Numbers.{num, bytes, put, tab, bytes_of};

// The number in the four bytes of s from index at. They are named one by one: copied as a slice, they would be stored and read again in a loop.
pub fn get32(s: &[u8], at: usize) -> u32
    requires { at + 4 ≤ length s.now }
    ensures { (result ≡ num at 4 s.now) × (result < 256 ^ 4) }
{
    u32::from_le_bytes([s[at], s[at + 1], s[at + 2], s[at + 3]])
}

// The number in the eight bytes of s from index at.
// It is made of two words: eight bytes named one by one would be no plainer.
pub fn get64(s: &[u8], at: usize) -> u64
    requires { at + 8 ≤ length s.now }
    ensures { (result ≡ num at 8 s.now) × (result < 256 ^ 8) }
{
    let low = u64::from(get32(s, at));
    let high = u64::from(get32(s, at + 4));
    low + high * 4_294_967_296
}

// Stores the n low bytes of x in s from index at on.
// Its bytes are taken one by one, so that it asks no bound of x.
pub fn put_num(s: &mut [u8], at: usize, n: usize, x: u64)
    requires { at + n ≤ length s.old }
    ensures { s.new ≡ put at (bytes n x) s.old }
{
    let mut rest = x;
    for b in s[at..at + n].iter_mut() {
        *b = (rest % 256) as u8;
        rest /= 256;
    }
}

// Stores the four bytes of x in s from index at on.
pub fn put32(s: &mut [u8], at: usize, x: u32)
    requires { at + 4 ≤ length s.old }
    ensures { s.new ≡ put at (bytes 4 x) s.old }
{
    s[at..at + 4].copy_from_slice(&x.to_le_bytes());
}

// Stores the eight bytes of x in s from index at on.
pub fn put64(s: &mut [u8], at: usize, x: u64)
    requires { at + 8 ≤ length s.old }
    ensures { s.new ≡ put at (bytes 8 x) s.old }
{
    s[at..at + 8].copy_from_slice(&x.to_le_bytes());
}

// Reads the words in s from index at on into all of out.
pub fn get_words(s: &[u8], at: usize, out: &mut [u32])
    requires { at + length out.old * 4 ≤ length s.now }
    ensures { out.new ≡ tab (length out.old) (λ i. num (at + i * 4) 4 s.now) }
{
    for (i, w) in out.iter_mut().enumerate() {
        *w = get32(s, at + i * 4);
    }
}

// Stores the bytes of the words in out from index at on; the rest of out stays.
pub fn put_words(out: &mut [u8], at: usize, words: &[u32])
    requires { at + length words.now * 4 ≤ length out.old }
    ensures { out.new ≡ put at (bytes_of words.now) out.old }
{
    for (i, w) in words.iter().enumerate() {
        put32(out, at + i * 4, *w);
    }
}
