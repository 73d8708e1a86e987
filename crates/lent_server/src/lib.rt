// The server's own steps on an exchange in lent bytes: INIT read, the signature. Each is lent the bytes and the room, judges for itself,
// returns its number and tells its places or counts through lent numbers (the C interface). Bytes that no exchange has are answered 1 and stay.
#![tactic(auto)]

ghost use Rattle.std.specs.Prelude.{◌≡◌, [], ◌∷◌, ◌≤◌, length};
ghost use Rattle.buffers.specs.Bytes.{onto};
ghost use Rattle.wire.specs.Parts.{part, inside, bytes_at};
ghost use Rattle.messages.specs.Position.{position};
ghost use Rattle.messages.specs.Messages.{reply_bytes, init_layout};
ghost use Rattle.exchange.specs.Steps.{init, sign as sign_step};
ghost use Rattle.lent.specs.Lent.{left, lent_call, positioned};

use wire::Part;

// INIT read: C joins the room. Told: C's place, and where a payload that is answered 12 or 13 breaks.
pub fn read_init(ex: &mut [u8], room: &mut [u8], payload: &[u8], told: &mut [u64; 3]) -> u8
    ensures { left result told.new ex.new room.new [] ≡ positioned (position result init_layout payload.now) (lent_call ex.old room.old (init payload.now) []) }
{
    let method = stored::byte_in(ex, stored::METHOD_AT);
    let fed = limits::number_told(judge_peer::init_cause(method, payload));
    let n = due::step_number(due::READ_INIT, ex, room.len(), fed);
    if n != 0 {
        *told = [0, 0, messages::position(n, payload, messages::INIT) as u64];
        return lent::refuse(n, ex, room);
    }
    let c = wire::string_part(payload, 1, 0);
    lent::with_c(ex, room, stored::INIT_READ, wire::part_of(payload, c));
    *told = [c.start as u64, c.len as u64, 0];
    0
}

// REPLY, written at the beginning of an output that it fits.
fn put_reply(out: &mut [u8], ks: &[u8], s: &[u8], signature: &[u8])
    requires { length (reply_bytes ks.now s.now signature.now) ≤ length out.old }
    ensures { out.new ≡ onto out.old (reply_bytes ks.now s.now signature.now) }
{
    out[0] = messages::REPLY.byte;
    writers::put_string(out, 1, ks);
    let a = 5 + ks.len();
    writers::put_string(out, a, s);
    let b = a + 4 + s.len();
    writers::put_string(out, b, signature);
}

// Bytes of the room, by where they begin and how many they are.
fn body_at(room: &[u8], start: usize, len: usize) -> &[u8]
    ensures { result.now ≡ bytes_at room.now (inside (length room.now) (part start len)) }
{
    wire::part_of(room, Part { start, len })
}

// The signature: writes REPLY, with K_S and S as they stand in the room, and K. Told: REPLY's count and K's.
pub fn sign(
    ex: &mut [u8],
    room: &[u8],
    signature: &[u8],
    out: &mut [u8],
    k_out: &mut [u8],
    counts: &mut [u64; 2],
) -> u8
    ensures { let q = sign_step signature.now (length out.old) (length k_out.old) in
        left result counts.new ex.new room.now (out.new ∷ k_out.new ∷ []) ≡ lent_call ex.old room.now q (out.old ∷ k_out.old ∷ []) }
{
    *counts = [0; 2];
    let fed = limits::number_told(judge::sign_cause(signature, out.len(), k_out.len()));
    let n = due::step_number(due::SIGN, ex, room.len(), fed);
    if n != 0 {
        return n;
    }
    let l = stored::lengths_in(ex);
    let at = lent::head_end(l);
    let a = transcript::field_size(l.ks);
    let c = transcript::field_size(l.c);
    let ks = body_at(room, at + 4, l.ks);
    let s = body_at(room, at + a + c + 4, l.s);
    put_reply(out, ks, s, signature);
    let size = lent::finish(ex, k_out);
    *counts = [(13 + l.ks + l.s + signature.len()) as u64, size as u64];
    0
}
