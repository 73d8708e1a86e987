// The causes in what the peer sent, INIT and REPLY, by the method (SPECIFICATION 7.3).
#![tactic(auto, unfolding(exchange::specs::Causes::init_cause, exchange::specs::Causes::reply_cause, messages::specs::Payload::judged, wire::specs::Causes::cause_unless, wire::specs::Causes::or_else))]

ghost use Rattle.std.specs.Prelude.{◌≡◌};
ghost use Rattle.limits.specs.Refusals.{told};
ghost use Rattle.messages.specs.Payload.{message_cause};
ghost use Rattle.messages.specs.Messages.{field_of};
ghost use Rattle.exchange.specs.Causes.{init_cause, reply_cause};

use limits::Refusal;
use messages::Layout;

// Why a payload is no message of a layout: 10 to 13.
fn message_cause(payload: &[u8], l: Layout) -> Result<(), Refusal>
    ensures { told result ≡ message_cause l payload.now }
{
    messages::judge_message(payload, l)?;
    Ok(())
}

// String i of INIT or REPLY.
fn field_of(payload: &[u8], i: usize) -> &[u8]
    ensures { result.now ≡ field_of payload.now i }
{
    wire::part_of(payload, wire::string_part(payload, 1, i))
}

// The first cause in an INIT: 10 to 13, then 14, 15.
pub fn init_cause(method: u8, payload: &[u8]) -> Result<(), Refusal>
    ensures { told result ≡ init_cause method payload.now }
{
    message_cause(payload, messages::INIT)?;
    let shape = methods::c_shape(method);
    let c = field_of(payload, 0);
    if !methods::length_fits(shape, c.len()) {
        return Err(Refusal::FieldLength);
    }
    if !methods::lead_fits(shape, c) {
        return Err(Refusal::PointLead);
    }
    Ok(())
}

// The first cause in a REPLY: 10 to 13, then 14 over all its fields, then 15.
pub fn reply_cause(method: u8, payload: &[u8]) -> Result<(), Refusal>
    ensures { told result ≡ reply_cause method payload.now }
{
    message_cause(payload, messages::REPLY)?;
    let shape = methods::s_shape(method);
    let host_key = field_of(payload, 0);
    let s = field_of(payload, 1);
    let signature = field_of(payload, 2);
    if !limits::in_range(1, limits::BLOB_MOST, host_key.len())
        || !methods::length_fits(shape, s.len())
        || !limits::in_range(1, limits::BLOB_MOST, signature.len())
    {
        return Err(Refusal::FieldLength);
    }
    if !methods::lead_fits(shape, s) {
        return Err(Refusal::PointLead);
    }
    Ok(())
}
