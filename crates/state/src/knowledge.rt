// The failure knowledge by value: counts and masks in flat arrays (document 01, "Which language form to use").
ghost use Rattle.std.specs.Prelude.{◌≡◌, ◌≤◌, take};
ghost use Rattle.state.specs.Layout.{entries_most};
ghost use Rattle.state.specs.code.Known.{nothing_known};

// Oldest entry first: entry i has its terms from ENTRY_TERMS * i on.
#[derive(Drop)]
pub struct Knowledge {
    pub count: usize,
    pub counts: [u32; super::ENTRIES_MOST],
    pub masks: [u32; super::ENTRY_MASKS],
}

impl Knowledge {
    // The counts of the entries that there are.
    pub fn counts(&self) -> &[u32]
        requires { self.now.count ≤ entries_most }
        ensures { result.now ≡ take self.now.count self.now.counts }
    {
        &self.counts[..self.count]
    }
}

// The knowledge of a fresh state: no entry, and all masks zero.
#[tactic(auto, unfolding(crate::specs::code::Known::nothing_known))]
pub fn fresh() -> Knowledge
    ensures { result ≡ nothing_known }
{
    Knowledge {
        count: 0,
        counts: [0; super::ENTRIES_MOST],
        masks: [0; super::ENTRY_MASKS],
    }
}
