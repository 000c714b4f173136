// The epochs known of each identifier, a byte for each from index `at` on, and the names that a message brings.
ghost use Rattle.std.specs.Prelude.{◌≡◌, List, ℕ, ◌+◌, ◌≤◌, ◌<◌, leb, length, get_or};
ghost use Rattle.numbers.specs.Numbers.{put};
ghost use Rattle.std.specs.List.{list_all};
ghost use Rattle.epochs.specs.Epochs.{epoch_most, epochs_most, epochs_in, identifier_of, epoch_of, older, raised, spoken};
ghost use Rattle.epochs.specs.code.Known.{bit_where, Named};

// A name: an identifier and its epoch.
#[derive(Clone, Copy)]
struct Name {
    identifier: u32,
    epoch: u32,
}

// A name is one word in a message.
impl From<u32> for Name {
    fn from(word: u32) -> Name
        ensures { (result.identifier ≡ identifier_of word) × (result.epoch ≡ epoch_of word) }
    {
        Name {
            identifier: word % 32,
            epoch: word / 32,
        }
    }
}

// The identifiers whose old names a message withdraws, and those that it names under an older epoch, as masks.
#[derive(Clone, Copy)]
pub struct Heard {
    pub risen: u32,
    pub late: u32,
}

// Whether each epoch is one.
pub fn fits(s: &[u8], at: usize) -> bool
    requires { at + epochs_most ≤ length s.now }
    ensures { result ≡ list_all (λ e. leb e epoch_most) (epochs_in at s.now) }
{
    let mut ok = true;
    for e in &s[at..at + super::EPOCHS_MOST] {
        ok &= *e <= super::EPOCH_MOST;
    }
    ok
}

// The identifier n as a mask where the test passes; else nobody.
fn bit_where(test: bool, n: u32) -> u32
    requires { n < 32 }
    ensures { result ≡ bit_where test n }
{
    if test { names::single(n) } else { 0 }
}

// The epoch of identifier n.
pub fn epoch_of(s: &[u8], at: usize, n: u32) -> u32
    requires { (at + epochs_most ≤ length s.now) × (n < epochs_most) }
    ensures { (result ≡ get_or (epochs_in at s.now) n 0) × (result < 256) }
{
    u32::from(s[at + n as usize])
}

// What a message's names withdraw, and which of them are old. The own identifier's is passed over.
pub fn hear(s: &[u8], at: usize, own: u32, words: &[u32]) -> Heard
    requires { (at + epochs_most ≤ length s.now) × Named words.now }
    ensures risen_value { result.risen ≡ older (epochs_in at s.now) (spoken own words.now (epochs_in at s.now)) }
    ensures late_value { result.late ≡ older (spoken own words.now (epochs_in at s.now)) (epochs_in at s.now) }
{
    let mut risen: u32 = 0;
    let mut late: u32 = 0;
    for w in words {
        let name = Name::from(*w);
        let n = name.identifier;
        let known = epoch_of(s, at, n);
        risen = names::union(risen, bit_where((n != own) & (known < name.epoch), n));
        late = names::union(late, bit_where((n != own) & (name.epoch < known), n));
    }
    Heard { risen, late }
}

// Puts the epochs that pass the known ones in their places.
pub fn raise(s: &mut [u8], at: usize, own: u32, words: &[u32])
    requires { (at + epochs_most ≤ length s.old) × Named words.now }
    ensures { (let ks : List ℕ = epochs_in at s.old in
        s.new ≡ put at (raised ks (spoken own words.now ks)) s.old) }
{
    for w in words {
        let name = Name::from(*w);
        let n = name.identifier;
        let known = epoch_of(s, at, n);
        if (n != own) & (known < name.epoch) {
            s[at + n as usize] = name.epoch as u8;
        }
    }
}
