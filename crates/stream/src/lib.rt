// The listing over a stream (document 01, "A listing, complete"): the bytes of the input come in pieces, and each piece is answered as it comes.
// What is kept between two pieces is a session, which only this crate can make and look into. Every function here is proved, and the crate assumes
// nothing of its own.
#![tactic(auto)]

ghost use Rattle.std.specs.Prelude.{◌≡◌, List, ℕ, [], ◌+◌, ◌*◌, ◌≤◌, length, take};
ghost use Rattle.numbers.specs.Numbers.{put};
ghost use Rattle.lines.specs.code.Sizes.{answer_most};
ghost use Rattle.lines.specs.Lines.{line_most, LineResult};
ghost use Rattle.stream.specs.Kept.{Kept, kept, nothing_kept, result_of, kept_next, text_next, kept_after, text_after, last_text};

use lines::LINE_MOST;
use std::marker::Model;

// What is kept between two pieces: whether a `set` was taken, the bytes of the line that have come, and the state. `begun` stands beside the state,
// which is no Option: a `set` that is refused works on its bytes too.
// There is no heap, so the line's length stands beside its bytes. Those behind them are zero: so a session is what it keeps and no more, and can be
// copied.
#[derive(Clone, Copy)]
pub struct Session {
    begun: bool,
    size: usize,
    line: [u8; LINE_MOST + 1],
    state: [u8; state::STATE_SIZE],
}

impl Model for Session {
    ghost use Rattle.std.specs.Prelude.{◌≡◌, ◌+◌, ◌-◌, ◌≤◌, ◌++◌, length, take, drop, replicate};
    ghost use Rattle.std.proofs.Common.{arith};
    ghost use Rattle.std.proofs.Math.Seq.{length-take-le};
    ghost use Rattle.std.proofs.lemmas.List.{take-append-drop};
    ghost use Rattle.lines.specs.Lines.{line_most};
    ghost use Rattle.stream.specs.Kept.{Kept, kept};

    ghost Value = { Kept };

    ghost view = { λ s. kept s.begun s.state (take s.size s.line) };

    ghost inverse = { λ k. record {
      begun = k.begun;
      size = length k.line;
      line = k.line ++ replicate (line_most + 1 - length k.line) 0;
      state = k.state;
    } };

    ghost invariant = { λ s. (s.size ≤ line_most + 1) × (length s.line ≡ line_most + 1)
        × (drop s.size s.line ≡ replicate (line_most + 1 - s.size) 0) };

    ghost inverse_ok = { λ s h. rw (length-take-le s.size s.line (omega (arith, h.0, h.1)), ← h.2, take-append-drop) };
}

impl Session {
    // Before the first byte.
    #[tactic(auto, unfolding(crate::specs::Kept::nothing_kept))]
    pub fn new() -> Session
        ensures { result ≡ nothing_kept }
    {
        Session {
            begun: false,
            size: 0,
            line: [0; LINE_MOST + 1],
            state: [0; state::STATE_SIZE],
        }
    }

    // Ends a line: stores its answer at the front of `out`, and tells how many bytes it has.
    fn end_line(&mut self, out: &mut [u8]) -> usize
        requires { answer_most ≤ length out.old }
        ensures { (let answer : LineResult = result_of self.old in
            (self.new ≡ kept answer.begun answer.state []) × (result ≡ length answer.text) × (result ≤ answer_most)
            × (out.new ≡ put 0 answer.text out.old)) }
    {
        let line = &self.line[..self.size];
        let filled = lines::answer(line, &mut self.state, &mut self.begun, out);
        self.line[..self.size].fill(0);
        self.size = 0;
        filled
    }

    // Takes one byte of input: a line feed ends the line, and a line that is too long anyway keeps no more bytes.
    fn take_byte(&mut self, b: u8, out: &mut [u8]) -> usize
        requires { answer_most ≤ length out.old }
        ensures { (self.new ≡ kept_next self.old b) × (result ≡ length (text_next self.old b)) × (result ≤ answer_most)
            × (out.new ≡ put 0 (text_next self.old b) out.old) }
    {
        if b == b'\n' {
            return self.end_line(out);
        }
        if self.size <= LINE_MOST {
            self.line[self.size] = b;
            self.size += 1;
        }
        0
    }

    // Takes a piece of the input and stores all that it prints at the front of `out`, which has room for an answer to each byte; tells how many bytes
    // that is.
    pub fn take_piece(&mut self, piece: &[u8], out: &mut [u8]) -> usize
        requires { answer_most * length piece.now ≤ length out.old }
        ensures { (let text : List ℕ = text_after self.old piece.now in
            (self.new ≡ kept_after self.old piece.now) × (result ≡ length text) × (result ≤ answer_most * length piece.now)
            × (out.new ≡ put 0 text out.old)) }
    {
        let mut filled: usize = 0;
        for b in piece {
            filled += self.take_byte(*b, &mut out[filled..]);
        }
        filled
    }

    // Ends the input: a last line without a line feed counts if it has bytes. Stores what it prints at the front of `out`.
    pub fn last_line(mut self, out: &mut [u8]) -> usize
        requires { answer_most ≤ length out.old }
        ensures value { (result ≡ length (last_text self)) × (result ≤ answer_most) }
        ensures out_after { out.new ≡ put 0 (last_text self) out.old }
    {
        if self.size == 0 {
            return 0;
        }
        self.end_line(out)
    }
}
