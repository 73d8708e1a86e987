// The library: each function of `boundary` under its own name, by C's calling convention and with the contract that it has there. A slice crosses as a
// pointer and a 64-bit length. Written by tests/exports.py.
#![tactic(auto)]

ghost use Rattle.std.specs.Prelude.{◌≡◌, [], ◌∷◌, ◌++◌, cond, length};
ghost use Rattle.limits.specs.Limits.{h_size, library_version};
ghost use Rattle.buffers.specs.Bytes.{zeros};
ghost use Rattle.wire.specs.Strings.{string, read_string};
ghost use Rattle.writers.specs.Writers.{wrote, leaves, string_cause};
ghost use Rattle.mpint.specs.Mpint.{shortest, mpint, read_mpint};
ghost use Rattle.methods.specs.Rows.{number_of, row_of, name_of};
ghost use Rattle.lookups.specs.Lookups.{method_cause, sizes_of, name_cause};
ghost use Rattle.names.specs.Cursor.{next_name};
ghost use Rattle.proposal.specs.Proposal.{kexinit};
ghost use Rattle.lists.specs.Lists.{first_bad, proposed, table_cause};
ghost use Rattle.messages.specs.Position.{position};
ghost use Rattle.messages.specs.Messages.{init_layout, reply_layout};
ghost use Rattle.kexinit.specs.Reader.{open_list};
ghost use Rattle.common.specs.Common.{any};
ghost use Rattle.choice.specs.Choice.{chosen};
ghost use Rattle.exchange.specs.Steps.{own_c, init, reply, secret as secret_step, sign as sign_step, verdict as verdict_step, number, output_after, step_part};
ghost use Rattle.arguments.specs.Arguments.{is_yes, classical_of, kem_of};
ghost use Rattle.stored.specs.Stored.{stage_number, fail_number, decoded, by_fit};
ghost use Rattle.keys.specs.Derived.{derive_cause, key_in};
ghost use Rattle.lent.specs.Lent.{place_of, left, lent_start, lent_call, positioned, session_known, lent_again};
ghost use Rattle.lent_hash.specs.LentHash.{hash_left, hash_start_left, hash_feed_left, hash_finish_left};
ghost use Rattle.boundary.specs.Answers.{cursor_of, cursor_numbers, opened_numbers, choice_numbers};

// ---- the codecs

#[unsafe(no_mangle)]
pub extern "C" fn castulfrisa_read_string(s: &[u8], places: &mut [u64; 4]) -> u64
    ensures { let r = read_string s.now in
        (result ≡ r.number) × (places.new ≡ place_of r.body ++ place_of r.rest) }
{
    boundary::castulfrisa_read_string(s, places)
}

#[unsafe(no_mangle)]
pub extern "C" fn castulfrisa_write_string(out: &mut [u8], body: &[u8], count: &mut u64) -> u64
    ensures { let b = body.now in
        let cause = string_cause (length out.old) b in
        (result ≡ cause) × (count.new ≡ (wrote cause (string b)).count) × (out.new ≡ leaves cause (string b) out.old) }
{
    boundary::castulfrisa_write_string(out, body, count)
}

#[unsafe(no_mangle)]
pub extern "C" fn castulfrisa_read_mpint(s: &[u8], sign: &mut i64, places: &mut [u64; 4]) -> u64
    ensures { let r = read_mpint s.now in
        (result ≡ r.number) × (sign.new ≡ r.sign) × (places.new ≡ place_of r.body ++ place_of r.rest) }
{
    boundary::castulfrisa_read_mpint(s, sign, places)
}

#[unsafe(no_mangle)]
pub extern "C" fn castulfrisa_write_mpint(out: &mut [u8], bytes: &[u8], count: &mut u64) -> u64
    ensures { let b = bytes.now in
        let cause = string_cause (length out.old) (shortest b) in
        (result ≡ cause) × (count.new ≡ (wrote cause (mpint b)).count) × (out.new ≡ leaves cause (mpint b) out.old) }
{
    boundary::castulfrisa_write_mpint(out, bytes, count)
}

// ---- the methods

#[unsafe(no_mangle)]
pub extern "C" fn castulfrisa_method_number(name: &[u8]) -> u64
    ensures { result ≡ number_of name.now }
{
    boundary::castulfrisa_method_number(name)
}

#[unsafe(no_mangle)]
pub extern "C" fn castulfrisa_method_name(method: u64, out: &mut [u8], count: &mut u64) -> u64
    ensures { let name = name_of (row_of method) in
        let cause = name_cause (length out.old) method in
        (result ≡ cause) × (count.new ≡ (wrote cause name).count) × (out.new ≡ leaves cause name out.old) }
{
    boundary::castulfrisa_method_name(method, out, count)
}

#[unsafe(no_mangle)]
pub extern "C" fn castulfrisa_method_sizes(method: u64, sizes: &mut [u64; 8]) -> u64
    ensures { (result ≡ method_cause method) × (sizes.new ≡ sizes_of method) }
{
    boundary::castulfrisa_method_sizes(method, sizes)
}

// ---- KEXINIT

#[unsafe(no_mangle)]
pub extern "C" fn castulfrisa_open_list(payload: &[u8], list: u64, opened: &mut [u64; 7]) -> u64
    ensures { let r = open_list payload.now list in
        (result ≡ r.head.number) × (opened.new ≡ opened_numbers r) }
{
    boundary::castulfrisa_open_list(payload, list, opened)
}

#[unsafe(no_mangle)]
pub extern "C" fn castulfrisa_next_name(
    payload: &[u8],
    cursor: &mut [u64; 2],
    name: &mut [u64; 2],
) -> u64
    ensures { let r = next_name payload.now (cursor_of cursor.old) in
        (result ≡ r.number) × (cursor.new ≡ cursor_numbers r.cursor) × (name.new ≡ place_of r.name) }
{
    boundary::castulfrisa_next_name(payload, cursor, name)
}

#[unsafe(no_mangle)]
pub extern "C" fn castulfrisa_write_kexinit(
    out: &mut [u8],
    cookie: &[u8],
    lists: &[u8],
    ends: &[u64; limits::LIST_COUNT],
    follows: u64,
    reserved: u64,
    told: &mut [u64; 2],
) -> u64
    ensures { let k = proposed cookie.now lists.now ends.now follows reserved in
        let cause = table_cause (length out.old) cookie.now lists.now ends.now follows reserved in
        (result ≡ cause) × (told.new ≡ (wrote cause (kexinit k)).count ∷ first_bad lists.now ends.now ∷ []) × (out.new ≡ leaves cause (kexinit k) out.old) }
{
    boundary::castulfrisa_write_kexinit(out, cookie, lists, ends, follows, reserved, told)
}

#[unsafe(no_mangle)]
pub extern "C" fn castulfrisa_choose(client: &[u8], server: &[u8], choice: &mut [u64; 5]) -> u64
    ensures { let r = chosen any client.now server.now in
        (result ≡ r.number) × (choice.new ≡ choice_numbers r) }
{
    boundary::castulfrisa_choose(client, server, choice)
}

// ---- the exchange, in bytes that the host lends

#[unsafe(no_mangle)]
pub extern "C" fn castulfrisa_start(
    ex: &mut [u8],
    role: u64,
    method: u64,
    vc: &[u8],
    vs: &[u8],
    ic: &[u8],
    is: &[u8],
    room: &mut [u8],
) -> u64
    ensures { left result [] ex.new room.new [] ≡ lent_start ex.old role method vc.now vs.now ic.now is.now room.old }
{
    boundary::castulfrisa_start(ex, role, method, vc, vs, ic, is, room)
}

#[unsafe(no_mangle)]
pub extern "C" fn castulfrisa_again(
    ex: &mut [u8],
    room: &mut [u8],
    method: u64,
    ic: &[u8],
    is: &[u8],
) -> u64
    ensures { left result [] ex.new room.new [] ≡ lent_again ex.old room.old method ic.now is.now }
{
    boundary::castulfrisa_again(ex, room, method, ic, is)
}

#[unsafe(no_mangle)]
pub extern "C" fn castulfrisa_own_c(
    ex: &mut [u8],
    room: &mut [u8],
    c: &[u8],
    out: &mut [u8],
    count: &mut u64,
) -> u64
    ensures { let q = own_c c.now (length out.old) in
        left result (count.new ∷ []) ex.new room.new (out.new ∷ []) ≡ lent_call ex.old room.old q (out.old ∷ []) }
{
    boundary::castulfrisa_own_c(ex, room, c, out, count)
}

#[unsafe(no_mangle)]
pub extern "C" fn castulfrisa_read_init(
    ex: &mut [u8],
    room: &mut [u8],
    payload: &[u8],
    told: &mut [u64; 3],
) -> u64
    ensures { left result told.new ex.new room.new [] ≡ positioned (position result init_layout payload.now) (lent_call ex.old room.old (init payload.now) []) }
{
    boundary::castulfrisa_read_init(ex, room, payload, told)
}

#[unsafe(no_mangle)]
pub extern "C" fn castulfrisa_read_reply(
    ex: &mut [u8],
    room: &mut [u8],
    payload: &[u8],
    told: &mut [u64; 7],
) -> u64
    ensures { left result told.new ex.new room.new [] ≡ positioned (position result reply_layout payload.now) (lent_call ex.old room.old (reply payload.now) []) }
{
    boundary::castulfrisa_read_reply(ex, room, payload, told)
}

#[unsafe(no_mangle)]
pub extern "C" fn castulfrisa_take_secret(
    ex: &mut [u8],
    room: &mut [u8],
    given: u64,
    x_count: u64,
    x: &[u8],
    kem: u64,
    k_pq: &[u8],
    ks: &[u8],
    s: &[u8],
    count: &mut u64,
    h: &mut [u8; limits::H_SIZE],
) -> u64
    ensures { let q = secret_step (classical_of given x_count) x.now (kem_of (decoded ex.old).method kem) k_pq.now ks.now s.now in
        left result (count.new ∷ h.new) ex.new room.new [] ≡ lent_call ex.old room.old q [] }
{
    boundary::castulfrisa_take_secret(ex, room, given, x_count, x, kem, k_pq, ks, s, count, h)
}

#[unsafe(no_mangle)]
pub extern "C" fn castulfrisa_sign(
    ex: &mut [u8],
    room: &[u8],
    signature: &[u8],
    out: &mut [u8],
    k_out: &mut [u8],
    counts: &mut [u64; 2],
) -> u64
    ensures { let q = sign_step signature.now (length out.old) (length k_out.old) in
        left result counts.new ex.new room.now (out.new ∷ k_out.new ∷ []) ≡ lent_call ex.old room.now q (out.old ∷ k_out.old ∷ []) }
{
    boundary::castulfrisa_sign(ex, room, signature, out, k_out, counts)
}

#[unsafe(no_mangle)]
pub extern "C" fn castulfrisa_verdict(
    ex: &mut [u8],
    room: &mut [u8],
    signature: u64,
    host_key: u64,
    k_out: &mut [u8],
    count: &mut u64,
) -> u64
    ensures { let q = verdict_step (is_yes signature) (is_yes host_key) (length k_out.old) in
        left result (count.new ∷ []) ex.new room.new (k_out.new ∷ []) ≡ lent_call ex.old room.old q (k_out.old ∷ []) }
{
    boundary::castulfrisa_verdict(ex, room, signature, host_key, k_out, count)
}

// ---- calls on an exchange that are no steps: they tell, or derive a key, and change neither exchange nor room

#[unsafe(no_mangle)]
pub extern "C" fn castulfrisa_init_c(
    ex: &[u8],
    room: &[u8],
    payload: &[u8],
    place: &mut [u64; 2],
) -> u64
    ensures { let b = ex.now in
        let q = init payload.now in
        (result ≡ by_fit b (number (decoded b) room.now q) 1) × (place.new ≡ by_fit b (place_of (step_part (decoded b) room.now q payload.now 0)) (zeros 2)) }
{
    boundary::castulfrisa_init_c(ex, room, payload, place)
}

#[unsafe(no_mangle)]
pub extern "C" fn castulfrisa_reply_host_key(
    ex: &[u8],
    room: &[u8],
    payload: &[u8],
    place: &mut [u64; 2],
) -> u64
    ensures { let b = ex.now in
        let q = reply payload.now in
        (result ≡ by_fit b (number (decoded b) room.now q) 1) × (place.new ≡ by_fit b (place_of (step_part (decoded b) room.now q payload.now 0)) (zeros 2)) }
{
    boundary::castulfrisa_reply_host_key(ex, room, payload, place)
}

#[unsafe(no_mangle)]
pub extern "C" fn castulfrisa_reply_s(
    ex: &[u8],
    room: &[u8],
    payload: &[u8],
    place: &mut [u64; 2],
) -> u64
    ensures { let b = ex.now in
        let q = reply payload.now in
        (result ≡ by_fit b (number (decoded b) room.now q) 1) × (place.new ≡ by_fit b (place_of (step_part (decoded b) room.now q payload.now 1)) (zeros 2)) }
{
    boundary::castulfrisa_reply_s(ex, room, payload, place)
}

#[unsafe(no_mangle)]
pub extern "C" fn castulfrisa_reply_signature(
    ex: &[u8],
    room: &[u8],
    payload: &[u8],
    place: &mut [u64; 2],
) -> u64
    ensures { let b = ex.now in
        let q = reply payload.now in
        (result ≡ by_fit b (number (decoded b) room.now q) 1) × (place.new ≡ by_fit b (place_of (step_part (decoded b) room.now q payload.now 2)) (zeros 2)) }
{
    boundary::castulfrisa_reply_signature(ex, room, payload, place)
}

#[unsafe(no_mangle)]
pub extern "C" fn castulfrisa_session_id(
    ex: &[u8],
    told: &mut [u64; 2],
    id: &mut [u8; limits::H_SIZE],
) -> u64
    ensures { let b = ex.now in
        let s = (decoded b).session in
        (result ≡ cond (session_known b) 0 1) × (told.new ≡ cond (session_known b) (s.len ∷ s.count ∷ []) (zeros 2)) × (id.new ≡ cond (session_known b) s.id (zeros h_size)) }
{
    boundary::castulfrisa_session_id(ex, told, id)
}

#[unsafe(no_mangle)]
pub extern "C" fn castulfrisa_derive(ex: &[u8], letter: u64, len: u64, out: &mut [u8]) -> u64
    ensures { let b = ex.now in
        let o = out.old in
        let cause = by_fit b (derive_cause (decoded b) letter len (length o)) 1 in
        (result ≡ cause) × (out.new ≡ output_after cause o (key_in (decoded b) letter len)) }
{
    boundary::castulfrisa_derive(ex, letter, len, out)
}

#[unsafe(no_mangle)]
pub extern "C" fn castulfrisa_state(ex: &[u8], told: &mut [u64; 4]) -> u64
    ensures { let b = ex.now in
        let e = decoded b in
        (result ≡ by_fit b 0 1) × (told.new ≡ by_fit b (stage_number e.stage ∷ fail_number e.stage ∷ e.role ∷ e.method ∷ []) (zeros 4)) }
{
    boundary::castulfrisa_state(ex, told)
}

// ---- hashes, in bytes that the host lends

#[unsafe(no_mangle)]
pub extern "C" fn castulfrisa_hash_start(hash: &mut [u8], kind: u64) -> u64
    ensures { hash_left result hash.new ≡ hash_start_left hash.old kind }
{
    boundary::castulfrisa_hash_start(hash, kind)
}

#[unsafe(no_mangle)]
pub extern "C" fn castulfrisa_hash_feed(hash: &mut [u8], part: &[u8]) -> u64
    ensures { hash_left result hash.new ≡ hash_feed_left hash.old part.now }
{
    boundary::castulfrisa_hash_feed(hash, part)
}

#[unsafe(no_mangle)]
pub extern "C" fn castulfrisa_hash_finish(hash: &[u8], digest: &mut [u8; limits::H_SIZE]) -> u64
    ensures { hash_left result digest.new ≡ hash_finish_left hash.now }
{
    boundary::castulfrisa_hash_finish(hash, digest)
}

// ---- the host's own

#[unsafe(no_mangle)]
pub extern "C" fn castulfrisa_wipe(b: &mut [u8])
    ensures { b.new ≡ zeros (length b.old) }
{
    boundary::castulfrisa_wipe(b)
}

#[unsafe(no_mangle)]
pub extern "C" fn castulfrisa_version() -> u64
    ensures { result ≡ library_version }
{
    boundary::castulfrisa_version()
}
