// The static library for C: each export calls the function of `monitor` that has its name and states that function's clauses again, word for word
// (tests/exports.sh compares them). Numbers and byte slices only: C hands in a slice as a pointer and a length, as include/monitor.h declares. No
// export asks anything of its caller. Each returns the number of the refusal, 0 for taken, and a refusal leaves every lent byte as it was.
#![tactic(auto)]

ghost use Rattle.std.specs.Prelude.{◌≡◌};
ghost use Rattle.clocks.specs.Clocks.{with_drift};
ghost use Rattle.clocks.specs.declared.Triple.{Triple};
ghost use Rattle.engine.specs.Calls.{setup};
ghost use Rattle.monitor.specs.Ask.{ask_number, ask_output, fewest_number, fewest_output};
ghost use Rattle.monitor.specs.Calls.{set_up_number, set_up_state, age_number, age_state, write_number, write_output};
ghost use Rattle.monitor.specs.Messages.{read_number, read_output, rewrite_number, rewrite_output};
ghost use Rattle.monitor.specs.Receive.{receipt_of, receipt_with, receive_number, receive_state};

// Sets a monitor up: own identifier, drift in parts per million, a reading of the own clock, and the own epoch. Answers 0, or 24, 1, 41, 2 or 3.
#[unsafe(no_mangle)]
pub extern "C" fn monitor_set_up(
    state: &mut [u8],
    own: u32,
    drift: u32,
    reading: u64,
    epoch: u64,
) -> u32
    ensures value { result ≡ set_up_number state.old (setup own drift reading epoch) }
    ensures state_after { state.new ≡ set_up_state state.old (setup own drift reading epoch) }
{
    monitor::calls::monitor_set_up(state, own, drift, reading, epoch)
}

// Ages the state to a reading of the own clock. Answers 0, or 24, 25, 3, 20 or 30.
#[unsafe(no_mangle)]
pub extern "C" fn monitor_age(state: &mut [u8], reading: u64) -> u32
    ensures value { result ≡ age_number state.old reading }
    ensures state_after { state.new ≡ age_state state.old reading }
{
    monitor::calls::monitor_age(state, reading)
}

// Receives a message that came over a channel with a least and a greatest delay. Answers 0, or 24, 25, 21, 10, 12, 11, 13,
// 14, 42, 15 to 18, 30, 31 or 32.
#[unsafe(no_mangle)]
pub extern "C" fn monitor_receive(
    state: &mut [u8],
    least: u64,
    greatest: u64,
    message: &[u8],
) -> u32
    ensures value { result ≡ receive_number state.old (receipt_of least greatest message.now) }
    ensures state_after { state.new ≡ receive_state state.old (receipt_of least greatest message.now) }
{
    monitor::receive::monitor_receive(state, least, greatest, message)
}

// The same with the sender's clock reading, the own one beside it, a half width and the sender's drift: where they show that the sender's clock has
// jumped, its name becomes an entry. Answers as above, or 40 after 21.
#[unsafe(no_mangle)]
pub extern "C" fn monitor_receive_with_readings(
    state: &mut [u8],
    least: u64,
    greatest: u64,
    sender_reading: u64,
    own_reading: u64,
    half_width: u64,
    sender_drift: u32,
    message: &[u8],
) -> u32
    ensures result_value { (let t : Triple = record { there = sender_reading; here = own_reading; half = half_width } in
        result ≡ receive_number state.old (receipt_with least greatest (with_drift t sender_drift) message.now)) }
    ensures state_after { (let t : Triple = record { there = sender_reading; here = own_reading; half = half_width } in
        state.new ≡ receive_state state.old (receipt_with least greatest (with_drift t sender_drift) message.now)) }
{
    monitor::receive::monitor_receive_with_readings(
        state,
        least,
        greatest,
        sender_reading,
        own_reading,
        half_width,
        sender_drift,
        message,
    )
}

// Asks at a limit of failed names: 24 bytes of answer. Answers 0, or 24, 25, 22 or 24 for the output.
#[unsafe(no_mangle)]
pub extern "C" fn monitor_ask(state: &[u8], limit: u64, answer: &mut [u8]) -> u32
    ensures value { result ≡ ask_number state.now limit answer.old }
    ensures answer_after { answer.new ≡ ask_output state.now limit answer.old }
{
    monitor::questions::monitor_ask(state, limit, answer)
}

// The fewest failures that explain the state: 16 bytes of answer. Answers 0, or 24, 25 or 24 for the output.
#[unsafe(no_mangle)]
pub extern "C" fn monitor_fewest(state: &[u8], answer: &mut [u8]) -> u32
    ensures value { result ≡ fewest_number state.now answer.old }
    ensures answer_after { answer.new ≡ fewest_output state.now answer.old }
{
    monitor::questions::monitor_fewest(state, answer)
}

// Writes the held datum at a position, 0 being the oldest, as a message from the own name. Answers 0, or 24, 25, 23 or 24 for the output.
#[unsafe(no_mangle)]
pub extern "C" fn monitor_write(state: &[u8], position: u64, message: &mut [u8]) -> u32
    ensures value { result ≡ write_number state.now position message.old }
    ensures message_after { message.new ≡ write_output state.now position message.old }
{
    monitor::calls::monitor_write(state, position, message)
}

// Reads a message: sender, left, right and term count go to the first 32 bytes of the output.
#[unsafe(no_mangle)]
pub extern "C" fn monitor_message_read(message: &[u8], reading: &mut [u8]) -> u32
    ensures value { result ≡ read_number message.now reading.old }
    ensures reading_after { reading.new ≡ read_output message.now reading.old }
{
    monitor::monitor_message_read(message, reading)
}

// Writes a message again in ends form, with the sender, epoch words, interval and terms that it has.
#[unsafe(no_mangle)]
pub extern "C" fn monitor_message_rewrite(message: &[u8], out: &mut [u8]) -> u32
    ensures value { result ≡ rewrite_number message.now out.old }
    ensures out_after { out.new ≡ rewrite_output message.now out.old }
{
    monitor::monitor_message_rewrite(message, out)
}
