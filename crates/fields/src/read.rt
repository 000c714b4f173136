// The fields of a line and the numbers that they write.
ghost use Rattle.std.specs.Prelude.{◌≡◌, cond, eqb, List, ℕ, Some, None, ◌+◌, ◌*◌, ◌≤◌, ◌<◌, length, drop, IfSome};
ghost use Rattle.std.specs.List.{list_all, position};
ghost use Rattle.numbers.specs.Numbers.{put, bytes_of};
ghost use Rattle.fields.specs.Fields.{fields, value, is_number, is_word};
ghost use Rattle.fields.specs.code.Scan.{later, space_at, numbers_in};

// A number has at most so many digits.
const DIGITS_MOST: usize = 20;

// The index of the first space, if there is one.
fn first_space(bytes: &[u8]) -> Option<usize>
    ensures { result ≡ position (λ b. eqb b 32) bytes.now }
{
    bytes.iter().position(|b| *b == b' ')
}

// The index of the first space from `at` on, or the length of the line.
pub fn field_end(line: &[u8], at: usize) -> usize
    requires { at ≤ length line.now }
    ensures { (result ≡ at + space_at (drop at line.now)) × (at ≤ result) × (result ≤ length line.now) }
{
    match first_space(&line[at..]) {
        Some(before) => at + before,
        None => line.len(),
    }
}

// The number that a field writes: 1 to 20 digits, and 64 bits hold it.
fn number(field: &[u8]) -> Option<u64>
    ensures { result ≡ cond (is_number field.now) (Some (value field.now)) None }
{
    if field.is_empty() || DIGITS_MOST < field.len() {
        return None;
    }
    let mut number: u64 = 0;
    for b in field {
        if !b.is_ascii_digit() {
            return None;
        }
        let digit = u64::from(*b - b'0');
        number = number.checked_mul(10)?.checked_add(digit)?;
    }
    Some(number)
}

// Reads the numbers of the fields from `from` on into the front of `values`, which has more than half as many places as the line has bytes: a number
// and the space behind it are two bytes at least. Answers how many they are. Where a field is no number, those before it were stored.
fn numbers_from(line: &[u8], from: usize, values: &mut [u64]) -> Option<usize>
    requires { (from ≤ length line.now) × (length line.now < 2 * length values.old) }
    ensures count { (let read : List (List ℕ) = fields (drop from line.now) in
        (result ≡ cond (list_all is_number read) (Some (length read)) None) × IfSome result (λ n. n ≤ length values.old)) }
    ensures values_after { (let read : List (List ℕ) = fields (drop from line.now) in
        values.new ≡ put 0 (numbers_in read) values.old) }
{
    // No `for` over `split`: the count has to come out of it all the same, and the field's place tells that the numbers have room.
    let mut at = from;
    let mut n: usize = 0;
    loop {
        let end = field_end(line, at);
        values[n] = number(&line[at..end])?;
        n += 1;
        if end == line.len() {
            return Some(n);
        }
        at = end + 1;
    }
}

// The same for the fields behind the first one, which ends at `end`.
pub fn numbers_behind(line: &[u8], end: usize, values: &mut [u64]) -> Option<usize>
    requires { (end ≡ space_at line.now) × (end ≤ length line.now) × (length line.now < 2 * length values.old) }
    ensures count { (let read : List (List ℕ) = later (fields line.now) in
        (result ≡ cond (list_all is_number read) (Some (length read)) None) × IfSome result (λ n. n ≤ length values.old)) }
    ensures values_after { (let read : List (List ℕ) = later (fields line.now) in
        values.new ≡ put 0 (numbers_in read) values.old) }
{
    if end == line.len() {
        return Some(0);
    }
    numbers_from(line, end + 1, values)
}

// Whether each number is a word of 32 bits.
pub fn words_fit(words: &[u64]) -> bool
    ensures { result ≡ list_all is_word words.now }
{
    words.iter().all(|word| *word <= u64::from(u32::MAX))
}

// Stores the bytes of the words at the front of `out`.
pub fn message_bytes(words: &[u64], out: &mut [u8])
    requires { length words.now * 4 ≤ length out.old }
    ensures { out.new ≡ put 0 (bytes_of words.now) out.old }
{
    for (i, word) in words.iter().enumerate() {
        numbers::put_num(out, i * 4, 4, *word);
    }
}
