// Receiving, for C, with clock readings or without.
ghost use Rattle.std.specs.Prelude.{◌≡◌, not, ◌≤◌, T};
ghost use Rattle.refusals.specs.Refusals.{number};
ghost use Rattle.clocks.specs.Clocks.{readings_fail, with_drift};
ghost use Rattle.clocks.specs.declared.Triple.{Triple};
ghost use Rattle.state.specs.Layout.{state_bytes, state_of};
ghost use Rattle.state.specs.Refusal.{after};
ghost use Rattle.engine.specs.Refusals.{delay_most};
ghost use Rattle.receipts.specs.code.Given.{IsState};
ghost use Rattle.monitor.specs.Receive.{Delivered, receipt_of, receipt_with, delivered, delivered_number, delivered_state};
ghost use Rattle.monitor.specs.Receive.{receive_number, receive_state};

use clocks::{Readings, Triple};
use receipts::delays::Delays;
use refusals::Refusal;

// Receives a message into a state in form, with delays and readings that fit.
fn receive_message(
    state: &mut [u8],
    delays: Delays,
    readings: Option<Readings>,
    message: &[u8],
) -> Result<(), Refusal>
    requires state_size_in_bounds { IsState state.old }
    requires least_le_greatest { (delays.least ≤ delays.greatest) × (delays.greatest ≤ delay_most) × T (not (readings_fail readings)) }
    ensures result_value { (let got : Delivered = delivered (receipt_with delays.least delays.greatest readings message.now) in
        number result ≡ delivered_number (state_of state.old) got) }
    ensures state_after { (let got : Delivered = delivered (receipt_with delays.least delays.greatest readings message.now) in
        state.new ≡ after (number result) (state_bytes (delivered_state (state_of state.old) got)) state.old) }
{
    let mut room = [0u32; radio::WORDS_MOST];
    let told = radio::read::read(super::take_words(message, &mut room))?;
    receipts::receipt::deliver(state, delays, readings, &told)
}

// Receives a message that came over a channel with a least and a greatest delay, with readings or without.
fn receive(
    state: &mut [u8],
    delays: Delays,
    readings: Option<Readings>,
    message: &[u8],
) -> Result<(), Refusal>
    ensures value { number result ≡ receive_number state.old (receipt_with delays.least delays.greatest readings message.now) }
    ensures state_after { state.new ≡ receive_state state.old (receipt_with delays.least delays.greatest readings message.now) }
{
    state::form::check(state)?;
    if delays.fail() {
        return Err(Refusal::Delay);
    }
    if clocks::readings_fail(readings) {
        return Err(Refusal::Readings);
    }
    receive_message(state, delays, readings, message)
}

// Receives a message that came over a channel with a least and a greatest delay. Answers 0, or 24, 25, 21, 10, 12, 11, 13,
// 14, 42, 15 to 18, 30, 31 or 32.
pub fn monitor_receive(state: &mut [u8], least: u64, greatest: u64, message: &[u8]) -> u32
    ensures value { result ≡ receive_number state.old (receipt_of least greatest message.now) }
    ensures state_after { state.new ≡ receive_state state.old (receipt_of least greatest message.now) }
{
    let delays = Delays { least, greatest };
    refusals::number(receive(state, delays, None, message))
}

// The same with the sender's clock reading, the own one beside it, a half width and the sender's drift: where they show that the sender's clock has
// jumped, its name becomes an entry. Answers as above, or 40 after 21.
pub fn monitor_receive_with_readings(
    state: &mut [u8],
    least: u64,
    greatest: u64,
    sender_reading: u64,
    own_reading: u64,
    half_width: u64,
    sender_drift: u32,
    message: &[u8],
) -> u32
    ensures result_value { (let t : Triple = record { there = sender_reading; here = own_reading; half = half_width } in
        result ≡ receive_number state.old (receipt_with least greatest (with_drift t sender_drift) message.now)) }
    ensures state_after { (let t : Triple = record { there = sender_reading; here = own_reading; half = half_width } in
        state.new ≡ receive_state state.old (receipt_with least greatest (with_drift t sender_drift) message.now)) }
{
    let triple = Triple {
        there: sender_reading,
        here: own_reading,
        half: half_width,
    };
    let readings = Readings {
        triple,
        drift: sender_drift,
    };
    let delays = Delays { least, greatest };
    refusals::number(receive(state, delays, Some(readings), message))
}
