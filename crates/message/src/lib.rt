// The radio message (document 01): read from words or refused, its term words as a part of the caller's slice, written in ends form, rewritten.
// Every function here is proved, and the crate assumes nothing of its own.
#![tactic(auto)]

ghost use Rattle.std.specs.Prelude.{◌≡◌};
ghost use Rattle.message.specs.Read.{sender_of, term_count, head_word_fits};

pub mod read;
pub mod write;

// The fewest and the most words of a message, and the most in bytes.
pub const WORDS_LEAST: usize = 5;

pub const WORDS_MOST: usize = 14;

pub const BYTES_MOST: usize = WORDS_MOST * 4;

// The most terms of a message.
pub const TERMS_MOST: usize = 8;

// A payload is below it; a word's kind counts in it.
pub const PAYLOAD_SIZE: u32 = 536_870_912;

// The first end that two words cannot hold.
pub const ENDS_LIMIT: u64 = 288_230_376_151_711_744;

// The first word of a message: the sender in bits 0 to 4, the term count in bits 5 to 9.
#[derive(Clone, Copy)]
pub struct Head {
    pub word: u32,
}

impl Head {
    // Who sent the message.
    pub fn sender(self) -> u32
        ensures { result ≡ sender_of self.word }
    {
        self.word % 32
    }

    // How many terms the message has.
    pub fn term_count(self) -> usize
        ensures { result ≡ term_count self.word }
    {
        (self.word / 32 % 32) as usize
    }

    // Whether the word is of kind 1, and no part of it is too great.
    #[tactic(auto, unfolding(crate::specs::Read::head_word_fits))]
    pub fn fits(self) -> bool
        ensures { result ≡ head_word_fits self.word }
    {
        (read::kind(self.word) == 1)
            & ((self.sender() <= 28)
                & ((self.term_count() <= TERMS_MOST) & (read::payload(self.word) / 1024 == 0)))
    }
}

// A message that is taken. Its term words (kind 6) and its epoch words (kind 0, none in a plain message) are parts of the caller's slice.
#[derive(Clone, Copy)]
pub struct Message<'a> {
    pub sender: u32,
    pub left: u64,
    pub right: u64,
    pub terms: &'a [u32],
    pub names: &'a [u32],
}
