// The client's own steps on an exchange in lent bytes: own C, REPLY read, the verdict. Each is lent the bytes and the room, judges for
// itself, returns its number and tells its counts or places through lent numbers (the C interface). Bytes that no exchange has are answered 1 and stay.
#![tactic(auto)]

ghost use Rattle.std.specs.Prelude.{◌≡◌, [], ◌∷◌, ◌≤◌, length};
ghost use Rattle.buffers.specs.Bytes.{onto};
ghost use Rattle.messages.specs.Position.{position};
ghost use Rattle.messages.specs.Messages.{init_bytes, reply_layout};
ghost use Rattle.exchange.specs.Steps.{own_c, reply, verdict as verdict_step};
ghost use Rattle.lent.specs.Lent.{left, lent_call, positioned};

// INIT, written at the beginning of an output that it fits.
fn put_init(out: &mut [u8], c: &[u8])
    requires { length (init_bytes c.now) ≤ length out.old }
    ensures { out.new ≡ onto out.old (init_bytes c.now) }
{
    out[0] = messages::INIT.byte;
    writers::put_string(out, 1, c);
}

// Own C: writes INIT, and C joins the room. Told: INIT's count.
pub fn own_c(ex: &mut [u8], room: &mut [u8], c: &[u8], out: &mut [u8], count: &mut u64) -> u8
    ensures { let q = own_c c.now (length out.old) in
        left result (count.new ∷ []) ex.new room.new (out.new ∷ []) ≡ lent_call ex.old room.old q (out.old ∷ []) }
{
    *count = 0;
    let method = stored::byte_in(ex, stored::METHOD_AT);
    let fed = limits::number_told(judge::own_c_cause(method, c, out.len()));
    let n = due::step_number(due::OWN_C, ex, room.len(), fed);
    if n != 0 {
        return lent::refuse(n, ex, room);
    }
    lent::with_c(ex, room, stored::C_SENT, c);
    put_init(out, c);
    *count = (5 + c.len()) as u64;
    0
}

// REPLY read: K_S goes in ahead of C, and S behind it. Told: the places of K_S, S and the signature, and where a payload that is answered
// 12 or 13 breaks.
pub fn read_reply(ex: &mut [u8], room: &mut [u8], payload: &[u8], told: &mut [u64; 7]) -> u8
    ensures { left result told.new ex.new room.new [] ≡ positioned (position result reply_layout payload.now) (lent_call ex.old room.old (reply payload.now) []) }
{
    let method = stored::byte_in(ex, stored::METHOD_AT);
    let fed = limits::number_told(judge_peer::reply_cause(method, payload));
    let n = due::step_number(due::READ_REPLY, ex, room.len(), fed);
    if n != 0 {
        *told = [0; 7];
        told[6] = messages::position(n, payload, messages::REPLY) as u64;
        return lent::refuse(n, ex, room);
    }
    let k = wire::string_part(payload, 1, 0);
    let v = wire::string_part(payload, 1, 1);
    let g = wire::string_part(payload, 1, 2);
    lent::with_s(
        ex,
        room,
        stored::REPLY_READ,
        wire::part_of(payload, k),
        wire::part_of(payload, v),
    );
    *told = [
        k.start as u64,
        k.len as u64,
        v.start as u64,
        v.len as u64,
        g.start as u64,
        g.len as u64,
        0,
    ];
    0
}

// The verdict on signature and host key: writes K, or ends the exchange with 18. Told: K's count.
pub fn verdict(
    ex: &mut [u8],
    room: &mut [u8],
    signature: bool,
    host_key: bool,
    k_out: &mut [u8],
    count: &mut u64,
) -> u8
    ensures { let q = verdict_step signature host_key (length k_out.old) in
        left result (count.new ∷ []) ex.new room.new (k_out.new ∷ []) ≡ lent_call ex.old room.old q (k_out.old ∷ []) }
{
    *count = 0;
    let fed = limits::number_told(judge::verdict_cause(signature, host_key, k_out.len()));
    let n = due::step_number(due::VERDICT, ex, room.len(), fed);
    if n != 0 {
        return lent::refuse(n, ex, room);
    }
    *count = lent::finish(ex, k_out) as u64;
    0
}
