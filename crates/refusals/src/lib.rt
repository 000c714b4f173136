// The refusals (documents 01 and 02, "Who can cause which refusal"): why a call was refused. C sees the number of a refusal, 0 for a call that was
// taken. Every function here is proved, and the crate assumes nothing of its own.
#![tactic(auto)]

ghost use Rattle.std.specs.Prelude.{◌≡◌};
ghost use Rattle.refusals.specs.Refusals.{number_of, number};

// Why a call was refused, in the order of the numbers.
#[derive(Clone, Copy, Debug, PartialEq, Eq, Hash)]
pub enum Refusal {
    // caused by the installer
    OwnName,
    Drift,
    Reading,
    // caused by the sender of a message
    WordCount,
    Form,
    Head,
    Length,
    Kind,
    Check,
    Interval,
    Terms,
    Sender,
    // caused by the host program
    Backwards,
    Delay,
    Limit,
    Position,
    Buffer,
    StateForm,
    // caused by a filling site
    End,
    TermCount,
    TooMany,
    // caused by the host program, with clock readings
    Readings,
    // caused by the installer, with epochs
    OwnEpoch,
    // caused by the sender of a message, with epochs
    Epochs,
}

impl From<Refusal> for u32 {
    ghost from_gives = { λ e n. n ≡ number_of e };

    fn from(refusal: Refusal) -> u32 {
        match refusal {
            Refusal::OwnName => 1,
            Refusal::Drift => 2,
            Refusal::Reading => 3,
            Refusal::WordCount => 10,
            Refusal::Form => 11,
            Refusal::Head => 12,
            Refusal::Length => 13,
            Refusal::Kind => 14,
            Refusal::Check => 15,
            Refusal::Interval => 16,
            Refusal::Terms => 17,
            Refusal::Sender => 18,
            Refusal::Backwards => 20,
            Refusal::Delay => 21,
            Refusal::Limit => 22,
            Refusal::Position => 23,
            Refusal::Buffer => 24,
            Refusal::StateForm => 25,
            Refusal::End => 30,
            Refusal::TermCount => 31,
            Refusal::TooMany => 32,
            Refusal::Readings => 40,
            Refusal::OwnEpoch => 41,
            Refusal::Epochs => 42,
        }
    }
}

// The number of a call, as C sees it: 0 for taken.
pub fn number(got: Result<(), Refusal>) -> u32
    ensures { result ≡ number got }
{
    match got {
        Ok(()) => 0,
        Err(refusal) => u32::from(refusal),
    }
}
