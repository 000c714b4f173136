// The sender's clock (document 02, W-201), on the bytes of a state in form: readings that come with a receipt are tested against what is saved
// of their sender, and saved. Only the sender's place is read or written.
ghost use Rattle.std.specs.Prelude.{◌≡◌, cond, ◌^◌, Some, None};
ghost use Rattle.clocks.specs.Clocks.{watched};
ghost use Rattle.state.specs.Model.{Head, with_clocks};
ghost use Rattle.state.specs.Layout.{head_of};
ghost use Rattle.receipts.specs.code.Given.{IsState, FromSender, put_head, violated_in};

use clocks::Readings;

// Whether a receipt's readings violate test (20) against what is saved of their sender's clock.
fn violated(state: &[u8], sender: u32, readings: Option<Readings>) -> bool
    requires { IsState state.now × FromSender sender readings }
    ensures { result ≡ violated_in state.now sender readings }
{
    let Some(given) = readings else {
        return false;
    };
    let own = state::drift(state);
    clocks::place::violated(
        state,
        state::CLOCKS_AT + sender as usize * clocks::place::PLACE_SIZE,
        own,
        given.drift,
        given.triple,
    )
}

// The sender's name as a term where its readings violate the test.
pub(crate) fn blame(state: &[u8], sender: u32, readings: Option<Readings>) -> Option<u32>
    requires { IsState state.now × FromSender sender readings }
    ensures { result ≡ cond (violated_in state.now sender readings) (Some (2 ^ sender)) None }
{
    if violated(state, sender, readings) {
        Some(names::single(sender))
    } else {
        None
    }
}

// Saves a receipt's readings in their sender's place; without readings every place stays.
pub(crate) fn save(state: &mut [u8], sender: u32, readings: Option<Readings>)
    requires { IsState state.old × FromSender sender readings }
    ensures { (let h : Head = head_of state.old in
        state.new ≡ put_head (with_clocks h (watched readings sender h.clocks)) state.old) }
{
    let Some(given) = readings else {
        return;
    };
    clocks::place::save(
        state,
        state::CLOCKS_AT + sender as usize * clocks::place::PLACE_SIZE,
        given.triple,
    );
}
