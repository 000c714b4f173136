// What a run has done, in counts that only this module can make and look into, so that nobody else counts a byte that no call has moved.
ghost use Rattle.std.specs.Prelude.{◌≡◌, ◌+◌, ◌-◌, ◌^◌, ◌<◌, length, take};
ghost use Rattle.std.specs.Io.KnownBytes.{Appends};
ghost use Rattle.listing.specs.System.{moved_by, is_end, Takes};
ghost use Rattle.listing.specs.Run.{is_lost, stopped};
ghost use Rattle.listing.specs.code.Turns.{nothing_done, Hears, HandsOn};

use crate::system;
use crate::system::Call;
use std::io::{Read, Write};

// How many bytes were read, handed on to be written, and written; and the last calls.
#[derive(Clone, Copy)]
pub struct Tally {
    read: u64,
    handed: u64,
    written: u64,
    input: Call,
    output: Call,
}

impl Tally {
    // Before the first call.
    #[tactic(auto, unfolding(crate::specs::code::Turns::nothing_done))]
    pub fn new() -> Tally
        ensures { result ≡ nothing_done }
    {
        Tally {
            read: 0,
            handed: 0,
            written: 0,
            input: Call::none(),
            output: Call::none(),
        }
    }

    // How many bytes were read.
    pub fn read(&self) -> u64
        ensures { result ≡ self.now.read }
    {
        self.read
    }

    // How many bytes the last read brought.
    pub fn came(&self) -> usize
        ensures { result ≡ moved_by self.now.input.got }
    {
        self.input.moved()
    }

    // Whether the last read has found the end of the input.
    pub fn is_end(&self) -> bool
        ensures { result ≡ is_end self.now.input.got }
    {
        self.input.is_end()
    }

    // Whether output is lost: more was handed on than could be written.
    pub fn is_lost(&self) -> bool
        ensures { result ≡ is_lost self.now }
    {
        self.written < self.handed
    }

    // Whether a run goes no further: the input has ended or cannot be read, or output is lost.
    pub fn stops(&self) -> bool
        ensures { result ≡ stopped self.now }
    {
        self.input.is_end() | (self.input.is_failure() | self.is_lost())
    }

    // Reads once, and counts what came.
    pub fn receive<R: Read>(&mut self, reader: &mut R, input: &mut [u8])
        requires { self.old.read + length input.old < 2 ^ 64 }
        ensures hears { Hears (length input.new) self.old self.new }
        ensures bytes { Takes (R.remaining reader.old) (R.remaining reader.new) self.new.input input.new }
    {
        self.input = system::receive(reader, input);
        self.read += self.input.moved() as u64;
    }

    // Hands a text on to be written, and counts it and what was written of it.
    pub fn hand_on<W: Write>(&mut self, writer: &mut W, text: &[u8])
        requires { (self.old.written ≡ self.old.handed) × (self.old.handed + length text.now < 2 ^ 64) }
        ensures hands_on { HandsOn (length text.now) self.old self.new }
        ensures bytes { Appends (W.contents writer.old) (W.contents writer.new) (take (self.new.written - self.old.written) text.now) }
    {
        let sent = system::send(writer, text);
        self.handed += text.len() as u64;
        self.written += sent.written as u64;
        self.output = sent.last;
    }
}
