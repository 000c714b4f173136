// Each exported call as C calls it: any bytes and numbers, so no function here has a `requires`, and each gets what demand 1 speaks of. Where an
// exported call asks something of its caller, or promises less than demand 1 says, its function here is not proved. No program uses this crate.
#![tactic(auto)]

ghost use Rattle.clocks.specs.declared.Triple.{Triple};
ghost use Rattle.engine.specs.Calls.{setup};
ghost use Rattle.runs.specs.Demand1.{monitor_set_up, monitor_age, monitor_receive, monitor_receive_with_readings};
ghost use Rattle.runs.specs.Demand1.{monitor_ask, monitor_fewest, monitor_write, message_read, message_rewrite};
ghost use Rattle.callers.specs.Stated.{AsStated};

pub fn set_up(state: &mut [u8], own: u32, drift: u32, reading: u64, epoch: u64) -> u32
    ensures { AsStated (monitor_set_up state.old (setup own drift reading epoch)) result state.new }
{
    monitor::calls::monitor_set_up(state, own, drift, reading, epoch)
}

pub fn age(state: &mut [u8], reading: u64) -> u32
    ensures { AsStated (monitor_age state.old reading) result state.new }
{
    monitor::calls::monitor_age(state, reading)
}

pub fn receive(state: &mut [u8], least: u64, greatest: u64, message: &[u8]) -> u32
    ensures { AsStated (monitor_receive state.old least greatest message.now) result state.new }
{
    monitor::receive::monitor_receive(state, least, greatest, message)
}

pub fn receive_with_readings(
    state: &mut [u8],
    least: u64,
    greatest: u64,
    there: u64,
    here: u64,
    half: u64,
    drift: u32,
    message: &[u8],
) -> u32
    ensures { (let t : Triple = record { there = there; here = here; half = half } in
        AsStated (monitor_receive_with_readings state.old least greatest t drift message.now) result state.new) }
{
    monitor::receive::monitor_receive_with_readings(
        state, least, greatest, there, here, half, drift, message,
    )
}

pub fn ask(state: &[u8], limit: u64, answer: &mut [u8]) -> u32
    ensures { AsStated (monitor_ask state.now limit answer.old) result answer.new }
{
    monitor::questions::monitor_ask(state, limit, answer)
}

pub fn fewest(state: &[u8], answer: &mut [u8]) -> u32
    ensures { AsStated (monitor_fewest state.now answer.old) result answer.new }
{
    monitor::questions::monitor_fewest(state, answer)
}

pub fn write(state: &[u8], position: u64, message: &mut [u8]) -> u32
    ensures { AsStated (monitor_write state.now position message.old) result message.new }
{
    monitor::calls::monitor_write(state, position, message)
}

pub fn message_read(message: &[u8], reading: &mut [u8]) -> u32
    ensures { AsStated (message_read message.now reading.old) result reading.new }
{
    monitor::monitor_message_read(message, reading)
}

pub fn message_rewrite(message: &[u8], out: &mut [u8]) -> u32
    ensures { AsStated (message_rewrite message.now out.old) result out.new }
{
    monitor::monitor_message_rewrite(message, out)
}
