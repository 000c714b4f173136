// What a taken receipt makes of the head (document 02, W-204): the clocks of risen identifiers are forgotten, their epochs raised, and the readings
// that are heeded saved.
ghost use Rattle.std.specs.Prelude.{◌≡◌};
ghost use Rattle.epochs.specs.Epochs.{older, spoken};
ghost use Rattle.epochs.specs.code.Known.{Named};
ghost use Rattle.clocks.specs.Clocks.{watched};
ghost use Rattle.state.specs.Model.{Head, with_clocks};
ghost use Rattle.state.specs.Layout.{head_of};
ghost use Rattle.receipts.specs.code.Given.{IsState, FromSender, put_head};
ghost use Rattle.engine.specs.Hearing.{cleared};
ghost use Rattle.engine.specs.code.Hearing.{heard_head};

use clocks::Readings;

// Forgets what is saved of the clocks of these identifiers.
fn forget(state: &mut [u8], risen: u32)
    requires { IsState state.old }
    ensures { (let h : Head = head_of state.old in
        state.new ≡ put_head (with_clocks h (cleared risen h.clocks)) state.old) }
{
    for i in 0..state::CLOCKS_MOST {
        if names::has(i as u32, risen) {
            let at = state::CLOCKS_AT + i * clocks::place::PLACE_SIZE;
            state::rows::clear(state, at, at + clocks::place::PLACE_SIZE);
        }
    }
}

// Stores the epochs that names bring: where some have risen, what is saved of those clocks goes.
fn store_epochs(state: &mut [u8], own: u32, names: &[u32], risen: u32)
    requires { IsState state.old × Named names.now }
    ensures { state.new ≡ put_head (heard_head own names.now risen (head_of state.old)) state.old }
{
    forget(state, risen);
    epochs::known::raise(state, state::EPOCHS_AT, own, names);
}

// Ends a taken receipt: the epochs are stored where some have risen, and then the readings are saved.
pub(crate) fn close(
    state: &mut [u8],
    own: u32,
    names: &[u32],
    risen: u32,
    sender: u32,
    readings: Option<Readings>,
)
    requires state_size_in_bounds { IsState state.old × Named names.now }
    requires sender_le_name_most { (risen ≡ older (head_of state.old).epochs (spoken own names.now (head_of state.old).epochs))
        × FromSender sender readings }
    ensures { (let h : Head = heard_head own names.now risen (head_of state.old) in
        state.new ≡ put_head (with_clocks h (watched readings sender h.clocks)) state.old) }
{
    if risen != 0 {
        store_epochs(state, own, names, risen);
    }
    super::watching::save(state, sender, readings);
}
