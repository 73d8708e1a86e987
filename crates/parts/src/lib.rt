// The parts of INIT and REPLY, by calls that are no steps: what a step would be handed, on the same exchange, room and payload. Nothing
// changes.
#![tactic(auto)]

ghost use Rattle.std.specs.Prelude.{◌≡◌};
ghost use Rattle.wire.specs.Parts.{bytes_at, nothing, place_at};
ghost use Rattle.messages.specs.Messages.{field_part};
ghost use Rattle.exchange.specs.Numbers.{kind, by_kind};
ghost use Rattle.exchange.specs.Steps.{init, reply, number, step_part};

use exchange::Exchange;
use wire::Part;

// The number that INIT's step would answer. It and REPLY's stay numbers, and two: `number` of exchange's Steps is what demand 3 speaks of, and one function
// over the judge and the step is no plainer than two lines.
pub fn init_number(e: Exchange, room: &[u8], payload: &[u8]) -> u8
    ensures { result ≡ number e room.now (init payload.now) }
{
    let fed = limits::number_told(judge_peer::init_cause(e.method, payload));
    by_value::step_number(due::READ_INIT, e, room.len(), fed)
}

// The number that REPLY's step would answer.
pub fn reply_number(e: Exchange, room: &[u8], payload: &[u8]) -> u8
    ensures { result ≡ number e room.now (reply payload.now) }
{
    let fed = limits::number_told(judge_peer::reply_cause(e.method, payload));
    by_value::step_number(due::READ_REPLY, e, room.len(), fed)
}

// The place of string i of a payload that is answered n; the empty part for every refusal.
#[tactic(auto, using(exchange::proofs::KindLaws::kind_accepted, crate::proofs::StepPartLaws::none_refused))]
fn accepted_part(n: u8, payload: &[u8], i: usize) -> Part
    ensures { result ≡ by_kind (kind n) (field_part payload.now i) nothing nothing }
{
    if n == 0 {
        wire::string_part(payload, 1, i)
    } else {
        Part::default()
    }
}

// The place of string i of an INIT that the step would accept; the empty part for every refusal.
#[tactic(auto, unfolding(exchange::specs::Steps::step_part))]
pub fn init_part(e: Exchange, room: &[u8], payload: &[u8], i: usize) -> Part
    ensures { result ≡ step_part e room.now (init payload.now) payload.now i }
{
    accepted_part(init_number(e, room, payload), payload, i)
}

// The place of string i of a REPLY that the step would accept; the empty part for every refusal.
#[tactic(auto, unfolding(exchange::specs::Steps::step_part))]
pub fn reply_part(e: Exchange, room: &[u8], payload: &[u8], i: usize) -> Part
    ensures { result ≡ step_part e room.now (reply payload.now) payload.now i }
{
    accepted_part(reply_number(e, room, payload), payload, i)
}

// C of an INIT that the step would accept on this exchange and room, as a part of the payload; empty for every refusal. No step: nothing
// changes.
pub fn init_c<'a>(e: Exchange, room: &[u8], payload: &'a [u8]) -> &'a [u8]
    ensures { let p = step_part e room.now (init payload.now) payload.now 0 in
        (result.now ≡ bytes_at payload.now p) × (result.ref_ptr ≡ place_at payload.entry.ref_ptr p) }
{
    wire::part_of(payload, init_part(e, room, payload, 0))
}

// String i of a REPLY that the step would accept, likewise.
fn reply_string<'a>(e: Exchange, room: &[u8], payload: &'a [u8], i: usize) -> &'a [u8]
    ensures { let p = step_part e room.now (reply payload.now) payload.now i in
        (result.now ≡ bytes_at payload.now p) × (result.ref_ptr ≡ place_at payload.entry.ref_ptr p) }
{
    wire::part_of(payload, reply_part(e, room, payload, i))
}

// K_S of a REPLY that the step would accept, likewise.
pub fn reply_host_key<'a>(e: Exchange, room: &[u8], payload: &'a [u8]) -> &'a [u8]
    ensures { let p = step_part e room.now (reply payload.now) payload.now 0 in
        (result.now ≡ bytes_at payload.now p) × (result.ref_ptr ≡ place_at payload.entry.ref_ptr p) }
{
    reply_string(e, room, payload, 0)
}

// S of a REPLY that the step would accept, likewise.
pub fn reply_s<'a>(e: Exchange, room: &[u8], payload: &'a [u8]) -> &'a [u8]
    ensures { let p = step_part e room.now (reply payload.now) payload.now 1 in
        (result.now ≡ bytes_at payload.now p) × (result.ref_ptr ≡ place_at payload.entry.ref_ptr p) }
{
    reply_string(e, room, payload, 1)
}

// The signature of a REPLY that the step would accept, likewise.
pub fn reply_signature<'a>(e: Exchange, room: &[u8], payload: &'a [u8]) -> &'a [u8]
    ensures { let p = step_part e room.now (reply payload.now) payload.now 2 in
        (result.now ≡ bytes_at payload.now p) × (result.ref_ptr ≡ place_at payload.entry.ref_ptr p) }
{
    reply_string(e, room, payload, 2)
}
