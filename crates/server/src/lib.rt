// The server's own steps by value: INIT read, the signature. Each takes the exchange and hands back its number, its counts and the exchange
// as it now is: the step on lent bytes, on bytes of its own. The lines that each begins with stay in each, as in `client`: the proof of a closure for them
// did not close.
#![tactic(auto)]

ghost use Rattle.std.specs.Prelude.{◌≡◌, length};
ghost use Rattle.exchange.specs.Steps.{init, sign as sign_step, number, answered, room_after, reply_of, output_after};

use exchange::{Exchange, Step};

// Server, INIT read: C joins the room.
pub fn read_init(e: Exchange, room: &mut [u8], payload: &[u8]) -> Step
    ensures { let q = init payload.now in
        (result ≡ answered e room.old q) × (room.new ≡ room_after e room.old q) }
{
    let Some(mut b) = by_value::lay(e) else {
        return by_value::not_due(e);
    };
    let mut told = [0u64; 3];
    let n = lent_server::read_init(&mut b, room, payload, &mut told);
    by_value::answer(n, 0, 0, told[2], &b)
}

// Server, the signature: writes REPLY, with K_S and S as they stand in the room, and K.
pub fn sign(e: Exchange, room: &[u8], signature: &[u8], out: &mut [u8], k_out: &mut [u8]) -> Step
    ensures { let q = sign_step signature.now (length out.old) (length k_out.old) in
        (result ≡ answered e room.now q) × (out.new ≡ output_after (number e room.now q) out.old (reply_of e room.now signature.now)) × (k_out.new ≡ output_after (number e room.now q) k_out.old e.k) }
{
    let Some(mut b) = by_value::lay(e) else {
        return by_value::not_due(e);
    };
    let mut counts = [0u64; 2];
    let n = lent_server::sign(&mut b, room, signature, out, k_out, &mut counts);
    by_value::answer(n, counts[0], counts[1], 0, &b)
}
