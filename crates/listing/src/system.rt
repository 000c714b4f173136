// Reading and writing. `receive` alone reads, `send` alone writes, and each hands on what the system returned as a call, which only this module can
// make and look into. What follows from a call is decided by methods whose contracts give the answer by a definition.
ghost use Rattle.std.specs.Prelude.{◌≡◌, not, ◌≤◌, ◌<◌, T, ltb, length, take};
ghost use Rattle.std.specs.Io.KnownBytes.{Appends};
ghost use Rattle.listing.specs.System.{moved_by, is_end, is_failure, number_of_kind, error_number, returned, tries_again, tries_most, is_repeated};
ghost use Rattle.listing.specs.System.{goes_on, Takes};
ghost use Rattle.listing.specs.code.Calls.{no_call, call_after};

use std::io::{Error, ErrorKind, Read, Write};
use std::{io, thread};

// The error numbers of a call that may go well the next time: a signal came, or no byte can be moved yet.
const EINTR: i32 = 4;

const EAGAIN: i32 = 11;

// A call of the system: how many bytes it moved, or the error number with which it failed, and how many calls for the same bytes have moved nothing
// by now.
#[derive(Clone, Copy)]
pub struct Call {
    got: Result<usize, i32>,
    tries: u64,
}

impl Call {
    // Before the first call: as if one had gone well.
    #[tactic(auto, unfolding(crate::specs::code::Calls::no_call))]
    pub fn none() -> Call
        ensures { result ≡ no_call }
    {
        Call {
            got: Ok(1),
            tries: 0,
        }
    }

    // How many bytes a call moved.
    pub fn moved(self) -> usize
        ensures { result ≡ moved_by self.got }
    {
        self.got.unwrap_or(0)
    }

    // Whether a read has found the end of the input.
    pub fn is_end(self) -> bool
        ensures { result ≡ is_end self.got }
    {
        matches!(self.got, Ok(0))
    }

    // Whether a call failed.
    pub fn is_failure(self) -> bool
        ensures { result ≡ is_failure self.got }
    {
        self.got.is_err()
    }

    // Whether a call may go well the next time: a signal came, or no byte can be moved yet.
    fn tries_again(self) -> bool
        ensures { result ≡ tries_again self.got }
    {
        match self.got {
            Ok(_) => false,
            Err(error) => (error == EINTR) | (error == EAGAIN),
        }
    }

    // Whether a call is made again.
    #[tactic(auto, unfolding(crate::specs::System::is_repeated))]
    fn is_repeated(self) -> bool
        ensures { result ≡ is_repeated self }
    {
        (self.tries < u64::MAX) & self.tries_again()
    }

    // Whether the bytes that are left are tried: the call moved some, or is made again.
    #[tactic(auto, unfolding(crate::specs::System::goes_on))]
    fn goes_on(self) -> bool
        ensures { result ≡ goes_on self }
    {
        (self.tries < u64::MAX) & ((self.moved() > 0) | self.tries_again())
    }

    // Where a call failed, others run before the next one.
    fn give_way(self) {
        if self.is_failure() {
            thread::yield_now();
        }
    }

    // The call that follows another one and returned this: a try more where it moved nothing.
    #[tactic(auto, unfolding(crate::specs::code::Calls::call_after))]
    fn followed_by(self, got: io::Result<usize>) -> Call
        requires { self.tries < tries_most }
        ensures { result ≡ call_after self (returned got) }
    {
        let got = got.map_err(error_number);
        let tries = match got {
            Ok(n) if n > 0 => self.tries,
            _ => self.tries + 1,
        };
        Call { got, tries }
    }
}

// The number of an error: the system's own, or for an error that has none the number that its kind stands for.
fn error_number(error: Error) -> i32
    ensures { result ≡ error_number error }
{
    match error.raw_os_error() {
        Some(n) => n,
        None => number_of_kind(error.kind()),
    }
}

// The number that a kind of error stands for where the program asks for it, and else 0. These are numbers of the C interface.
fn number_of_kind(kind: ErrorKind) -> i32
    ensures { result ≡ number_of_kind kind }
{
    match kind {
        ErrorKind::Interrupted => EINTR,
        ErrorKind::WouldBlock => EAGAIN,
        _ => 0,
    }
}

// Reads, and again where nothing can be read yet: what the system answers ends the loop, and nothing is counted.
pub fn receive<R: Read>(reader: &mut R, input: &mut [u8]) -> Call
    ensures call { (moved_by result.got ≤ length input.new) × T (not (is_repeated result)) }
    ensures bytes { Takes (R.remaining reader.old) (R.remaining reader.new) result input.new }
{
    let mut last = Call::none();
    loop {
        last.give_way();
        last = last.followed_by(reader.read(input));
        if !last.is_repeated() {
            return last;
        }
    }
}

// How many bytes of a text were written, and the last call.
#[derive(Clone, Copy)]
pub struct Sent {
    pub written: usize,
    pub last: Call,
}

// Writes a text, in as many calls as it takes: how far each comes is the system's to say.
pub fn send<W: Write>(writer: &mut W, text: &[u8]) -> Sent
    ensures written { result.written ≤ length text.now }
    ensures bytes { Appends (W.contents writer.old) (W.contents writer.new) (take result.written text.now) }
    ensures whole { ltb result.written (length text.now) ≡ not (goes_on result.last) }
{
    let mut at: usize = 0;
    let mut last = Call::none();
    while at < text.len() && last.goes_on() {
        last.give_way();
        last = last.followed_by(writer.write(&text[at..]));
        at += last.moved();
    }
    Sent { written: at, last }
}
