// The lines that the listing prints, as bytes at the front of the output.
ghost use Rattle.std.specs.Prelude.{◌≡◌, ◌≤◌, length};
ghost use Rattle.numbers.specs.Numbers.{put};
ghost use Rattle.monitor.specs.Ask.{answer_in, fewest_in};
ghost use Rattle.lines.specs.Text.{bad_text, number_text, answer_text, fewest_text};
ghost use Rattle.lines.specs.code.Sizes.{answer_most};

use fields::text;

// The line for a line that is no command.
pub fn put_bad(out: &mut [u8]) -> usize
    requires { answer_most ≤ length out.old }
    ensures value { result ≡ length bad_text }
    ensures out_after { out.new ≡ put 0 bad_text out.old }
{
    text::put_text(out, 0, b"bad line\n")
}

// The line for the number of a call: `ok`, or `refused` and the number.
// The number is the call's, as C has it: 0 for taken.
pub fn put_number(out: &mut [u8], number: u32) -> usize
    requires { answer_most ≤ length out.old }
    ensures value { result ≡ length (number_text number) }
    ensures out_after { out.new ≡ put 0 (number_text number) out.old }
{
    if number == 0 {
        return text::put_text(out, 0, b"ok\n");
    }
    text::put_line(out, b"refused", &[u64::from(number)])
}

// The line for the 24 bytes that asking gives: `contradicted`, `open`, or `between` and both ends.
pub fn put_answer(out: &mut [u8], answer: &[u8]) -> usize
    requires { (24 ≤ length answer.now) × (answer_most ≤ length out.old) }
    ensures value { result ≡ length (answer_text (answer_in answer.now)) }
    ensures out_after { out.new ≡ put 0 (answer_text (answer_in answer.now)) out.old }
{
    // The bytes are those of the C interface, so a number tells the kind.
    match numbers::get64(answer, 0) {
        0 => text::put_text(out, 0, b"contradicted\n"),
        1 => text::put_text(out, 0, b"open\n"),
        _ => {
            let left = numbers::get64(answer, 8);
            let right = numbers::get64(answer, 16);
            text::put_line(out, b"between", &[left, right])
        }
    }
}

// The line for the 16 bytes that the fewest failures give: `fewest over 4`, or `fewest` with count and mask.
pub fn put_fewest(out: &mut [u8], answer: &[u8]) -> usize
    requires { (16 ≤ length answer.now) × (answer_most ≤ length out.old) }
    ensures value { result ≡ length (fewest_text (fewest_in answer.now)) }
    ensures out_after { out.new ≡ put 0 (fewest_text (fewest_in answer.now)) out.old }
{
    // The bytes are those of the C interface, where a count of 5 stands for more than 4.
    match numbers::get64(answer, 0) {
        5 => text::put_text(out, 0, b"fewest over 4\n"),
        count => {
            let mask = numbers::get64(answer, 8);
            text::put_line(out, b"fewest", &[count, mask])
        }
    }
}
