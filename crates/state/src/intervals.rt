// The intervals of held data in a state's bytes: an end has 8 bytes for its whole microseconds and 4, behind the terms, for its millionths.
ghost use Rattle.std.specs.Prelude.{◌≡◌, ◌≤◌, ◌<◌, ◌^◌, leb, ltb, length, ◌&&◌};
ghost use Rattle.ends.specs.Ends.{count_of, Split, BothSplit};
ghost use Rattle.state.specs.Model.{end_limit};
ghost use Rattle.state.specs.Layout.{state_size, data_most};
ghost use Rattle.state.specs.code.Tables.{ends_at, with_ends};

use ends::{End, Ends};

// The ends of the datum in place i.
#[tactic(auto, unfolding(crate::specs::code::Tables::ends_at))]
pub fn get(s: &[u8], i: usize) -> Ends
    requires { (state_size ≤ length s.now) × (i < data_most) }
    ensures { result ≡ ends_at s.now i }
{
    let at = super::DATA_AT + i * super::DATUM_SIZE;
    Ends {
        left: End {
            whole: numbers::get64(s, at),
            millionths: numbers::get32(s, at + super::LEFT_MILLIONTHS_IN) as u64,
        },
        right: End {
            whole: numbers::get64(s, at + super::RIGHT_IN),
            millionths: numbers::get32(s, at + super::RIGHT_MILLIONTHS_IN) as u64,
        },
    }
}

// Puts other ends into the datum in place i; its terms stay.
#[tactic(auto, unfolding(crate::specs::code::Tables::with_ends))]
pub fn put(s: &mut [u8], i: usize, ends: Ends)
    requires { (state_size ≤ length s.old) × (i < data_most) }
    ensures { s.new ≡ with_ends i ends s.old }
{
    let at = super::DATA_AT + i * super::DATUM_SIZE;
    numbers::put64(s, at, ends.left.whole);
    numbers::put64(s, at + super::RIGHT_IN, ends.right.whole);
    numbers::put_num(s, at + super::LEFT_MILLIONTHS_IN, 4, ends.left.millionths);
    numbers::put_num(s, at + super::RIGHT_MILLIONTHS_IN, 4, ends.right.millionths);
}

// Whether the ends are in order and can be stored. The whole microseconds nearly always tell.
pub(crate) fn ordered(e: Ends) -> bool
    requires { BothSplit e }
    ensures { result ≡ (leb (count_of e.left) (count_of e.right) && ltb (count_of e.right) end_limit) }
{
    if (e.left.whole < e.right.whole) & (e.right.whole < super::LAST_WHOLE) {
        return true;
    }
    !ends::precedes(e.right, e.left) & storable(e.right)
}

// Whether an end can be stored: it is 2^58 - 1 at most.
#[tactic(auto, using(crate::proofs::FormLaws::last_end))]
pub fn storable(e: End) -> bool
    requires { Split e }
    ensures { result ≡ ltb (count_of e) end_limit }
{
    (e.whole < super::LAST_WHOLE) | ((e.whole == super::LAST_WHOLE) & (e.millionths == 0))
}
