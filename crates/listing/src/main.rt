// The listing (document 01, "A listing, complete"): a line of standard input is a command, and each is answered by a line. Input of any length is
// read in pieces; what a piece prints is written before the next one is read, so that a person who types sees each answer.
// No contract can say what the system gives or takes. So the module `system` alone reads and writes, `count` counts what was returned, and the
// contracts tie these counts to the definitions and to the last calls: a read that failed taken for the input's end, output that is lost and not
// told, a piece that is dropped or taken twice, a text that is not sent or sent twice, a start with something kept, an end before the input's end and
// a last line that is passed over each make a count wrong. All but `main` takes any reader and writer, and where their bytes are known, as those of a
// slice and a `Vec` are, the contracts say which bytes are read and written: `answer_all` writes the listing of all that it reads.
#![tactic(auto)]

ghost use Rattle.std.specs.Prelude.{◌≡◌, ◌||◌, List, ℕ, ◌+◌, ◌-◌, ◌*◌, ◌≤◌, ◌<◌, T, not, leb, length, take, IfSome};
ghost use Rattle.std.specs.Io.KnownBytes.{Appends};
ghost use Rattle.numbers.specs.Numbers.{put};
ghost use Rattle.lines.specs.code.Sizes.{answer_most};
ghost use Rattle.stream.specs.Listing.{listing_of};
ghost use Rattle.stream.specs.Kept.{text_after};
ghost use Rattle.listing.specs.System.{moved_by, is_end, Takes};
ghost use Rattle.listing.specs.Run.{read_most, is_lost, stopped, Went, Ran, Passed, Listed, CallsTell, complaint_of};
ghost use Rattle.listing.specs.code.Turns.{piece_most, is_going, Turned};

use crate::count::Tally;
use lines::ANSWER_MOST;
use std::io::{Read, Write};
use stream::Session;

mod count;
mod system;

// So many bytes are read at once at most.
const PIECE_MOST: usize = 4096;

// The output has room for an answer to each byte of a piece.
const OUT_SIZE: usize = ANSWER_MOST * PIECE_MOST;

// A proved loop has to end, and nothing says that the input does: no run reads so many bytes.
const READ_MOST: u64 = 72_057_594_037_927_936;

// How far a run has come: what it keeps, and what it has done.
#[derive(Clone, Copy)]
struct Progress {
    session: Session,
    tally: Tally,
}

impl Progress {
    // Reads once, and answers what came: the piece stands at the front of `input` then, and what it prints at the front of `out`.
    fn turn<R: Read, W: Write>(
        &mut self,
        reader: &mut R,
        writer: &mut W,
        input: &mut [u8],
        out: &mut [u8],
    )
        requires room { (length input.old ≡ piece_most) × (answer_most * piece_most ≤ length out.old) }
        requires goes { (self.old.tally.read < read_most) × (self.old.tally.handed ≤ answer_most * self.old.tally.read)
            × (self.old.tally.written ≡ self.old.tally.handed) }
        ensures turned { (let piece : List ℕ = take (moved_by self.new.tally.input.got) input.new in
            Turned piece self.old.session self.new.session self.old.tally self.new.tally
            × (out.new ≡ put 0 (text_after self.old.session piece) out.old)) }
        ensures heard { Takes (R.remaining reader.old) (R.remaining reader.new) self.new.tally.input input.new }
        ensures told { (let piece : List ℕ = take (moved_by self.new.tally.input.got) input.new in
            (self.old.tally.written ≤ self.new.tally.written)
            × Appends (W.contents writer.old) (W.contents writer.new)
            (take (self.new.tally.written - self.old.tally.written) (text_after self.old.session piece))) }
    {
        self.tally.receive(reader, input);
        let n = self.tally.came();
        let filled = self.session.take_piece(&input[..n], out);
        self.tally.hand_on(writer, &out[..filled]);
    }

    // Whether a run goes on.
    #[tactic(auto, unfolding(crate::specs::code::Turns::is_going))]
    fn is_going(&self) -> bool
        ensures { result ≡ is_going self.now.tally }
    {
        (self.tally.read() < READ_MOST) & !self.tally.stops()
    }
}

// Reads and answers until the run stops.
// No range is gone over: what was read decides.
fn take_all<R: Read, W: Write>(
    reader: &mut R,
    writer: &mut W,
    input: &mut [u8],
    out: &mut [u8],
) -> Progress
    requires { (length input.old ≡ piece_most) × (answer_most * piece_most ≤ length out.old) }
    ensures bounded { result.tally.read < read_most + piece_most }
    ensures went { Went result.tally.read result.tally.handed result.session }
    ensures calls_tell { CallsTell result.tally × (T (is_end result.tally.input.got) → result.tally.written ≡ result.tally.handed) }
    ensures stopped { T (stopped result.tally || leb read_most result.tally.read) }
    ensures bytes { Passed (R.remaining reader.old) (R.remaining reader.new) (W.contents writer.old) (W.contents writer.new)
        result.tally result.session }
{
    let mut progress = Progress {
        session: Session::new(),
        tally: Tally::new(),
    };
    while progress.is_going() {
        progress.turn(reader, writer, input, out);
    }
    progress
}

// Room for what a piece prints.
fn room() -> [u8; OUT_SIZE]
    ensures { answer_most * piece_most ≡ length result }
{
    [0; OUT_SIZE]
}

// Reads and answers all, a last line without a line feed too.
fn answer_all<R: Read, W: Write>(reader: &mut R, writer: &mut W) -> Tally
    ensures ran { Ran result.read result.handed (is_end result.input.got) }
    ensures calls_tell { CallsTell result × T (stopped result || leb read_most result.read) }
    ensures bytes { Listed (R.remaining reader.old) (R.remaining reader.new) (W.contents writer.old) (W.contents writer.new) result }
    ensures listing { T (is_end result.input.got) → T (not (is_lost result))
        → IfSome (R.remaining reader.old) (λ input. Appends (W.contents writer.old) (W.contents writer.new) (listing_of input)) }
{
    let mut input = [0u8; PIECE_MOST];
    let mut out = room();
    let Progress { session, mut tally } = take_all(reader, writer, &mut input, &mut out);
    if tally.is_end() {
        let filled = session.last_line(&mut out);
        tally.hand_on(writer, &out[..filled]);
    }
    tally
}

// What a run that loses something says: of two sentences the one for output, or else the one for input.
#[tactic(auto, unfolding(crate::specs::Run::complaint_of))]
fn complaint<'a>(tally: Tally, unwritten: &'a [u8], unread: &'a [u8]) -> &'a [u8]
    ensures { result.now ≡ complaint_of tally unwritten.now unread.now }
{
    if tally.is_lost() {
        unwritten
    } else if tally.is_end() {
        b""
    } else {
        unread
    }
}

fn main(rt: HostRuntime) {
    let mut reader = rt.stdin();
    let mut writer = rt.stdout();
    let tally = answer_all(&mut reader, &mut writer);
    let said = complaint(
        tally,
        b"listing: cannot write its output\n",
        b"listing: cannot read its input\n",
    );
    let _ = Print::write_all(&rt.stderr(), said);
}
