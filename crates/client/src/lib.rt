// The client's own steps by value: own C, REPLY read, the verdict. Each takes the exchange and hands back its number, its counts and the
// exchange as it now is: the step on lent bytes, on bytes of its own. The lines that each begins with stay in each: of a step as a closure no proof knows
// what it did to the room and the outputs that it borrows.
#![tactic(auto)]

ghost use Rattle.std.specs.Prelude.{◌≡◌, length};
ghost use Rattle.messages.specs.Messages.{init_bytes};
ghost use Rattle.exchange.specs.Steps.{own_c, reply, verdict as verdict_step, number, answered, room_after, output_after};

use exchange::{Exchange, Step};

// Client, own C: writes INIT, and C joins the room.
pub fn own_c(e: Exchange, room: &mut [u8], c: &[u8], out: &mut [u8]) -> Step
    ensures { let q = own_c c.now (length out.old) in
        (result ≡ answered e room.old q) × (room.new ≡ room_after e room.old q) × (out.new ≡ output_after (number e room.old q) out.old (init_bytes c.now)) }
{
    let Some(mut b) = by_value::lay(e) else {
        return by_value::not_due(e);
    };
    let mut count = 0u64;
    let n = lent_client::own_c(&mut b, room, c, out, &mut count);
    by_value::answer(n, count, 0, 0, &b)
}

// Client, REPLY read: K_S goes in ahead of C, and S behind it.
pub fn read_reply(e: Exchange, room: &mut [u8], payload: &[u8]) -> Step
    ensures { let q = reply payload.now in
        (result ≡ answered e room.old q) × (room.new ≡ room_after e room.old q) }
{
    let Some(mut b) = by_value::lay(e) else {
        return by_value::not_due(e);
    };
    let mut told = [0u64; 7];
    let n = lent_client::read_reply(&mut b, room, payload, &mut told);
    by_value::answer(n, 0, 0, told[6], &b)
}

// Client, the verdict on signature and host key: writes K, or ends the exchange with 18.
pub fn verdict(
    e: Exchange,
    room: &mut [u8],
    signature: bool,
    host_key: bool,
    k_out: &mut [u8],
) -> Step
    ensures { let q = verdict_step signature host_key (length k_out.old) in
        (result ≡ answered e room.old q) × (room.new ≡ room_after e room.old q) × (k_out.new ≡ output_after (number e room.old q) k_out.old e.k) }
{
    let Some(mut b) = by_value::lay(e) else {
        return by_value::not_due(e);
    };
    let mut count = 0u64;
    let n = lent_client::verdict(&mut b, room, signature, host_key, k_out, &mut count);
    by_value::answer(n, count, 0, 0, &b)
}
