// Texts and decimal numbers, as bytes at a place of the output, and the lines that they make. Each function answers the place behind what it stored.
ghost use Rattle.std.specs.Prelude.{◌≡◌, ◌+◌, ◌*◌, ◌^◌, ◌≤◌, ◌<◌, length};
ghost use Rattle.numbers.specs.Numbers.{put};
ghost use Rattle.fields.specs.Decimal.{digits, decimal, with_one, with_two};
ghost use Rattle.fields.specs.code.Lines.{with_numbers};

// Stores the bytes of `text` in `out` from index `at` on, and answers the place behind them.
pub fn put_text(out: &mut [u8], at: usize, text: &[u8]) -> usize
    requires { at + length text.now ≤ length out.old }
    ensures value { result ≡ at + length text.now }
    ensures out_after { out.new ≡ put at text.now out.old }
{
    let end = at + text.len();
    out[at..end].copy_from_slice(text);
    end
}

// The digit d as a byte.
// The library's digit is a char, not a byte.
fn glyph(d: u64) -> u8
    requires { d < 10 }
    ensures { result ≡ 48 + d }
{
    b'0' + d as u8
}

// Stores the decimal digits of n, at most k, from index `at` on, and answers the place behind them: those of n / 10, then the last one.
fn put_digits(out: &mut [u8], at: usize, k: usize, n: u64) -> usize
    requires { (at + k ≤ length out.old) × (n < 10 ^ k) }
    ensures value { (result ≡ at + length (digits k n)) × (result ≤ at + k) }
    ensures out_after { out.new ≡ put at (digits k n) out.old }
{
    if k == 0 {
        return at;
    }
    if n < 10 {
        out[at] = glyph(n);
        return at + 1;
    }
    let end = put_digits(out, at, k - 1, n / 10);
    out[end] = glyph(n % 10);
    end + 1
}

// Stores a number in decimal.
fn put_decimal(out: &mut [u8], at: usize, n: u64) -> usize
    requires { at + 20 ≤ length out.old }
    ensures value { (result ≡ at + length (decimal n)) × (result ≤ at + 20) }
    ensures out_after { out.new ≡ put at (decimal n) out.old }
{
    put_digits(out, at, 20, n)
}

// The line of a word and numbers at the front of the output, with a space before each number; answers how many bytes it has. A number has at most 20
// digits.
pub fn put_line(out: &mut [u8], word: &[u8], numbers: &[u64]) -> usize
    requires { length word.now + 21 * length numbers.now + 1 ≤ length out.old }
    ensures value { result ≡ length (with_numbers word.now numbers.now) }
    ensures out_after { out.new ≡ put 0 (with_numbers word.now numbers.now) out.old }
{
    let mut end = put_text(out, 0, word);
    for number in numbers {
        end = put_text(out, end, b" ");
        end = put_decimal(out, end, *number);
    }
    put_text(out, end, b"\n")
}

// The line of a word and a number right behind it at the front of the output; answers how many bytes it has. A number has at most 20 digits, and a
// line feed or a space behind it.
pub fn put_one(out: &mut [u8], word: &[u8], a: u64) -> usize
    requires { length word.now + 21 ≤ length out.old }
    ensures value { result ≡ length (with_one word.now a) }
    ensures out_after { out.new ≡ put 0 (with_one word.now a) out.old }
{
    let first = put_text(out, 0, word);
    let second = put_decimal(out, first, a);
    put_text(out, second, b"\n")
}

// The line of a word and two numbers at the front of the output, with a space between the two.
pub fn put_two(out: &mut [u8], word: &[u8], a: u64, b: u64) -> usize
    requires { length word.now + 42 ≤ length out.old }
    ensures value { result ≡ length (with_two word.now a b) }
    ensures out_after { out.new ≡ put 0 (with_two word.now a b) out.old }
{
    let first = put_text(out, 0, word);
    let second = put_decimal(out, first, a);
    let third = put_text(out, second, b" ");
    let last = put_decimal(out, third, b);
    put_text(out, last, b"\n")
}
