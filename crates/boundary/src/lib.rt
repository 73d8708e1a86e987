// The C boundary: every entry of the core, as `boundary_c` exports it. Only what every C calling convention agrees on crosses: slices as a
// pointer and a 64-bit length, pointers to 64-bit numbers and to H's 64 bytes, and 64-bit numbers. A call returns its number; what else it
// tells goes through lent numbers: here an Option or a Result becomes what the C interface needs. A part's two numbers are widened where they are told: an array
// of both would be taken apart again in the next line.
#![tactic(auto)]

ghost use Rattle.std.specs.Prelude.{◌≡◌, [], ◌∷◌, ◌++◌, cond, length};
ghost use Rattle.limits.specs.Limits.{h_size, library_version};
ghost use Rattle.buffers.specs.Bytes.{zeros};
ghost use Rattle.wire.specs.Strings.{string, read_string};
ghost use Rattle.writers.specs.Writers.{wrote, leaves, string_cause};
ghost use Rattle.mpint.specs.Mpint.{shortest, mpint, read_mpint};
ghost use Rattle.methods.specs.Rows.{number_of, row_of, name_of};
ghost use Rattle.lookups.specs.Lookups.{method_cause, sizes_of, name_cause};
ghost use Rattle.names.specs.Cursor.{next_name};
ghost use Rattle.proposal.specs.Proposal.{kexinit};
ghost use Rattle.lists.specs.Lists.{first_bad, proposed, table_cause};
ghost use Rattle.messages.specs.Position.{position};
ghost use Rattle.messages.specs.Messages.{init_layout, reply_layout};
ghost use Rattle.kexinit.specs.Reader.{open_list};
ghost use Rattle.common.specs.Common.{any};
ghost use Rattle.choice.specs.Choice.{chosen};
ghost use Rattle.exchange.specs.Steps.{own_c, init, reply, secret as secret_step, sign as sign_step, verdict as verdict_step, number, output_after, step_part};
ghost use Rattle.arguments.specs.Arguments.{is_yes, classical_of, kem_of};
ghost use Rattle.stored.specs.Stored.{stage_number, fail_number, decoded, by_fit};
ghost use Rattle.keys.specs.Derived.{derive_cause, key_in};
ghost use Rattle.lent.specs.Lent.{place_of, left, lent_start, lent_call, positioned, session_known, lent_again};
ghost use Rattle.lent_hash.specs.LentHash.{hash_left, hash_start_left, hash_feed_left, hash_finish_left};
ghost use Rattle.boundary.specs.Answers.{cursor_of, cursor_numbers, opened_numbers, choice_numbers};

use limits::Refusal;
use names::Cursor;

// ---- the codecs

// The string at the front of s. Told: the places of its body and of the rest.
pub fn castulfrisa_read_string(s: &[u8], places: &mut [u64; 4]) -> u64
    ensures { let r = read_string s.now in
        (result ≡ r.number) × (places.new ≡ place_of r.body ++ place_of r.rest) }
{
    match wire::read_string(s) {
        Some(r) => {
            *places = [
                r.body.start as u64,
                r.body.len as u64,
                r.rest.start as u64,
                r.rest.len as u64,
            ];
            0
        }
        None => {
            *places = [0; 4];
            Refusal::FieldPastEnd as u64
        }
    }
}

// Writes body as a string. Told: its count.
pub fn castulfrisa_write_string(out: &mut [u8], body: &[u8], count: &mut u64) -> u64
    ensures { let b = body.now in
        let cause = string_cause (length out.old) b in
        (result ≡ cause) × (count.new ≡ (wrote cause (string b)).count) × (out.new ≡ leaves cause (string b) out.old) }
{
    match writers::write_string(out, body) {
        Ok(n) => {
            *count = n as u64;
            0
        }
        Err(e) => {
            *count = 0;
            e.number() as u64
        }
    }
}

// The mpint at the front of s. Told: its sign, and the places of its body and of the rest.
pub fn castulfrisa_read_mpint(s: &[u8], sign: &mut i64, places: &mut [u64; 4]) -> u64
    ensures { let r = read_mpint s.now in
        (result ≡ r.number) × (sign.new ≡ r.sign) × (places.new ≡ place_of r.body ++ place_of r.rest) }
{
    match mpint::read_mpint(s) {
        Ok(r) => {
            *sign = lookups::told_sign(r.sign);
            *places = [
                r.body.start as u64,
                r.body.len as u64,
                r.rest.start as u64,
                r.rest.len as u64,
            ];
            0
        }
        Err(e) => {
            *sign = 0;
            *places = [0; 4];
            e.number() as u64
        }
    }
}

// Writes the number of two's complement bytes as an mpint. Told: its count.
pub fn castulfrisa_write_mpint(out: &mut [u8], bytes: &[u8], count: &mut u64) -> u64
    ensures { let b = bytes.now in
        let cause = string_cause (length out.old) (shortest b) in
        (result ≡ cause) × (count.new ≡ (wrote cause (mpint b)).count) × (out.new ≡ leaves cause (mpint b) out.old) }
{
    match mpint::write_mpint(out, bytes) {
        Ok(n) => {
            *count = n as u64;
            0
        }
        Err(e) => {
            *count = 0;
            e.number() as u64
        }
    }
}

// ---- the methods

// The number of the method of this name, 0 with none.
pub fn castulfrisa_method_number(name: &[u8]) -> u64
    ensures { result ≡ number_of name.now }
{
    method_names::number_of(name) as u64
}

// The name of a method. Told: its count.
pub fn castulfrisa_method_name(method: u64, out: &mut [u8], count: &mut u64) -> u64
    ensures { let name = name_of (row_of method) in
        let cause = name_cause (length out.old) method in
        (result ≡ cause) × (count.new ≡ (wrote cause name).count) × (out.new ≡ leaves cause name out.old) }
{
    lookups::method_name(method, out, count)
}

// The sizes and rules of a method.
pub fn castulfrisa_method_sizes(method: u64, sizes: &mut [u64; 8]) -> u64
    ensures { (result ≡ method_cause method) × (sizes.new ≡ sizes_of method) }
{
    lookups::method_sizes(method, sizes)
}

// ---- KEXINIT

// Opens a payload for one of its ten lists. Told: the cookie's place, the boolean, the reserved number, a cursor, and with 12 and 13 the position.
pub fn castulfrisa_open_list(payload: &[u8], list: u64, opened: &mut [u64; 7]) -> u64
    ensures { let r = open_list payload.now list in
        (result ≡ r.head.number) × (opened.new ≡ opened_numbers r) }
{
    match kexinit::open_list(payload, list as usize) {
        Ok(o) => {
            *opened = [
                o.fixed.cookie.start as u64,
                o.fixed.cookie.len as u64,
                lookups::told(o.fixed.follows),
                o.fixed.reserved as u64,
                o.cursor.at as u64,
                o.cursor.end as u64,
                0,
            ];
            0
        }
        Err(r) => {
            let c = names::NOTHING_AHEAD;
            *opened = [0, 0, 0, 0, c.at as u64, c.end as u64, r.position as u64];
            r.cause.number() as u64
        }
    }
}

// The next name of an opened list; the cursor moves behind it. Told: its place, with no bytes at the list's end.
pub fn castulfrisa_next_name(payload: &[u8], cursor: &mut [u64; 2], name: &mut [u64; 2]) -> u64
    ensures { let r = next_name payload.now (cursor_of cursor.old) in
        (result ≡ r.number) × (cursor.new ≡ cursor_numbers r.cursor) × (name.new ≡ place_of r.name) }
{
    let c = Cursor {
        at: cursor[0] as usize,
        end: cursor[1] as usize,
    };
    *name = [0, 0];
    match names::next_name(payload, c) {
        Ok(Some(n)) => {
            *cursor = [n.cursor.at as u64, n.cursor.end as u64];
            *name = [n.name.start as u64, n.name.len as u64];
            0
        }
        Ok(None) => 0,
        Err(e) => e.number() as u64,
    }
}

// Writes a KEXINIT from ten lists, told by their ends. Told: its count, and which list is bad.
pub fn castulfrisa_write_kexinit(
    out: &mut [u8],
    cookie: &[u8],
    lists: &[u8],
    ends: &[u64; limits::LIST_COUNT],
    follows: u64,
    reserved: u64,
    told: &mut [u64; 2],
) -> u64
    ensures { let k = proposed cookie.now lists.now ends.now follows reserved in
        let cause = table_cause (length out.old) cookie.now lists.now ends.now follows reserved in
        (result ≡ cause) × (told.new ≡ (wrote cause (kexinit k)).count ∷ first_bad lists.now ends.now ∷ []) × (out.new ≡ leaves cause (kexinit k) out.old) }
{
    lists::write_lists(out, cookie, lists, ends, follows, reserved, told)
}

// The choice from a client's and a server's KEXINIT. Told: the method, the host key name's place in the client's payload, and whether
// each side's next packet is to be ignored.
pub fn castulfrisa_choose(client: &[u8], server: &[u8], choice: &mut [u64; 5]) -> u64
    ensures { let r = chosen any client.now server.now in
        (result ≡ r.number) × (choice.new ≡ choice_numbers r) }
{
    match choice::choose(client, server) {
        Ok(r) => {
            *choice = [
                r.method as u64,
                r.host_key.start as u64,
                r.host_key.len as u64,
                lookups::told(r.ignore_client),
                lookups::told(r.ignore_server),
            ];
            0
        }
        Err(e) => {
            *choice = [0; 5];
            e.number() as u64
        }
    }
}

// ---- the exchange, in bytes that the host lends

// Starts an exchange.
pub fn castulfrisa_start(
    ex: &mut [u8],
    role: u64,
    method: u64,
    vc: &[u8],
    vs: &[u8],
    ic: &[u8],
    is: &[u8],
    room: &mut [u8],
) -> u64
    ensures { left result [] ex.new room.new [] ≡ lent_start ex.old role method vc.now vs.now ic.now is.now room.old }
{
    let r = arguments::byte_of(role);
    let m = arguments::byte_of(method);
    lent_steps::start(ex, r, m, vc, vs, ic, is, room) as u64
}

// Begins a complete exchange again, with the V's that stand in the room. A method's number is judged as it came.
pub fn castulfrisa_again(ex: &mut [u8], room: &mut [u8], method: u64, ic: &[u8], is: &[u8]) -> u64
    ensures { left result [] ex.new room.new [] ≡ lent_again ex.old room.old method ic.now is.now }
{
    let m = arguments::byte_of(method);
    lent_again::again(ex, room, m, ic, is) as u64
}

// Client, own C. Told: INIT's count.
pub fn castulfrisa_own_c(
    ex: &mut [u8],
    room: &mut [u8],
    c: &[u8],
    out: &mut [u8],
    count: &mut u64,
) -> u64
    ensures { let q = own_c c.now (length out.old) in
        left result (count.new ∷ []) ex.new room.new (out.new ∷ []) ≡ lent_call ex.old room.old q (out.old ∷ []) }
{
    lent_client::own_c(ex, room, c, out, count) as u64
}

// Server, INIT read. Told: C's place, and with 12 and 13 the position.
pub fn castulfrisa_read_init(
    ex: &mut [u8],
    room: &mut [u8],
    payload: &[u8],
    told: &mut [u64; 3],
) -> u64
    ensures { left result told.new ex.new room.new [] ≡ positioned (position result init_layout payload.now) (lent_call ex.old room.old (init payload.now) []) }
{
    lent_server::read_init(ex, room, payload, told) as u64
}

// Client, REPLY read. Told: the places of K_S, S and the signature, and with 12 and 13 the position.
pub fn castulfrisa_read_reply(
    ex: &mut [u8],
    room: &mut [u8],
    payload: &[u8],
    told: &mut [u64; 7],
) -> u64
    ensures { left result told.new ex.new room.new [] ≡ positioned (position result reply_layout payload.now) (lent_call ex.old room.old (reply payload.now) []) }
{
    lent_client::read_reply(ex, room, payload, told) as u64
}

// Both roles, the secret. Told: the hash input's count, and H as 64 bytes; zeros on a refusal.
pub fn castulfrisa_take_secret(
    ex: &mut [u8],
    room: &mut [u8],
    given: u64,
    x_count: u64,
    x: &[u8],
    kem: u64,
    k_pq: &[u8],
    ks: &[u8],
    s: &[u8],
    count: &mut u64,
    h: &mut [u8; limits::H_SIZE],
) -> u64
    ensures { let q = secret_step (classical_of given x_count) x.now (kem_of (decoded ex.old).method kem) k_pq.now ks.now s.now in
        left result (count.new ∷ h.new) ex.new room.new [] ≡ lent_call ex.old room.old q [] }
{
    let cl = arguments::classical_of(given, x_count);
    let km = arguments::kem_of(stored::byte_in(ex, stored::METHOD_AT), kem);
    lent_steps::take_secret(ex, room, cl, x, km, k_pq, ks, s, count, h) as u64
}

// Server, the signature. Told: REPLY's count and K's.
pub fn castulfrisa_sign(
    ex: &mut [u8],
    room: &[u8],
    signature: &[u8],
    out: &mut [u8],
    k_out: &mut [u8],
    counts: &mut [u64; 2],
) -> u64
    ensures { let q = sign_step signature.now (length out.old) (length k_out.old) in
        left result counts.new ex.new room.now (out.new ∷ k_out.new ∷ []) ≡ lent_call ex.old room.now q (out.old ∷ k_out.old ∷ []) }
{
    lent_server::sign(ex, room, signature, out, k_out, counts) as u64
}

// Client, the verdict. Told: K's count.
pub fn castulfrisa_verdict(
    ex: &mut [u8],
    room: &mut [u8],
    signature: u64,
    host_key: u64,
    k_out: &mut [u8],
    count: &mut u64,
) -> u64
    ensures { let q = verdict_step (is_yes signature) (is_yes host_key) (length k_out.old) in
        left result (count.new ∷ []) ex.new room.new (k_out.new ∷ []) ≡ lent_call ex.old room.old q (k_out.old ∷ []) }
{
    let a = arguments::is_yes(signature);
    let b = arguments::is_yes(host_key);
    lent_client::verdict(ex, room, a, b, k_out, count) as u64
}

// ---- calls on an exchange that are no steps: they tell, or derive a key, and change neither exchange nor room

// The number that INIT's step would answer, and C's place.
pub fn castulfrisa_init_c(ex: &[u8], room: &[u8], payload: &[u8], place: &mut [u64; 2]) -> u64
    ensures { let b = ex.now in
        let q = init payload.now in
        (result ≡ by_fit b (number (decoded b) room.now q) 1) × (place.new ≡ by_fit b (place_of (step_part (decoded b) room.now q payload.now 0)) (zeros 2)) }
{
    lent_parts::init_part(ex, room, payload, 0, place) as u64
}

// The number that REPLY's step would answer, and the place of K_S.
pub fn castulfrisa_reply_host_key(
    ex: &[u8],
    room: &[u8],
    payload: &[u8],
    place: &mut [u64; 2],
) -> u64
    ensures { let b = ex.now in
        let q = reply payload.now in
        (result ≡ by_fit b (number (decoded b) room.now q) 1) × (place.new ≡ by_fit b (place_of (step_part (decoded b) room.now q payload.now 0)) (zeros 2)) }
{
    lent_parts::reply_part(ex, room, payload, 0, place) as u64
}

// Likewise, and the place of S.
pub fn castulfrisa_reply_s(ex: &[u8], room: &[u8], payload: &[u8], place: &mut [u64; 2]) -> u64
    ensures { let b = ex.now in
        let q = reply payload.now in
        (result ≡ by_fit b (number (decoded b) room.now q) 1) × (place.new ≡ by_fit b (place_of (step_part (decoded b) room.now q payload.now 1)) (zeros 2)) }
{
    lent_parts::reply_part(ex, room, payload, 1, place) as u64
}

// Likewise, and the place of the signature.
pub fn castulfrisa_reply_signature(
    ex: &[u8],
    room: &[u8],
    payload: &[u8],
    place: &mut [u64; 2],
) -> u64
    ensures { let b = ex.now in
        let q = reply payload.now in
        (result ≡ by_fit b (number (decoded b) room.now q) 1) × (place.new ≡ by_fit b (place_of (step_part (decoded b) room.now q payload.now 2)) (zeros 2)) }
{
    lent_parts::reply_part(ex, room, payload, 2, place) as u64
}

// The session of an exchange at any stage. Told: the identifier's length, how many exchanges were completed, and the identifier's 64 bytes.
pub fn castulfrisa_session_id(ex: &[u8], told: &mut [u64; 2], id: &mut [u8; limits::H_SIZE]) -> u64
    ensures { let b = ex.now in
        let s = (decoded b).session in
        (result ≡ cond (session_known b) 0 1) × (told.new ≡ cond (session_known b) (s.len ∷ s.count ∷ []) (zeros 2)) × (id.new ≡ cond (session_known b) s.id (zeros h_size)) }
{
    lent_parts::session(ex, told, id) as u64
}

// A key of a complete exchange, at the output's beginning.
pub fn castulfrisa_derive(ex: &[u8], letter: u64, len: u64, out: &mut [u8]) -> u64
    ensures { let b = ex.now in
        let o = out.old in
        let cause = by_fit b (derive_cause (decoded b) letter len (length o)) 1 in
        (result ≡ cause) × (out.new ≡ output_after cause o (key_in (decoded b) letter len)) }
{
    keys::derive(ex, letter as usize, len as usize, out) as u64
}

// How far an exchange has come. Told: its stage, the number that ended it, its role and its method.
pub fn castulfrisa_state(ex: &[u8], told: &mut [u64; 4]) -> u64
    ensures { let b = ex.now in
        let e = decoded b in
        (result ≡ by_fit b 0 1) × (told.new ≡ by_fit b (stage_number e.stage ∷ fail_number e.stage ∷ e.role ∷ e.method ∷ []) (zeros 4)) }
{
    lent_parts::state(ex, told) as u64
}

// ---- hashes, in bytes that the host lends

// Starts a hash of a kind: the bytes of its digest.
pub fn castulfrisa_hash_start(hash: &mut [u8], kind: u64) -> u64
    ensures { hash_left result hash.new ≡ hash_start_left hash.old kind }
{
    lent_hash::start(hash, kind as usize) as u64
}

// Feeds it a part of its message.
pub fn castulfrisa_hash_feed(hash: &mut [u8], part: &[u8]) -> u64
    ensures { hash_left result hash.new ≡ hash_feed_left hash.old part.now }
{
    lent_hash::feed(hash, part) as u64
}

// Tells its digest, zeros behind it. It may be fed on.
pub fn castulfrisa_hash_finish(hash: &[u8], digest: &mut [u8; limits::H_SIZE]) -> u64
    ensures { hash_left result digest.new ≡ hash_finish_left hash.now }
{
    lent_hash::finish(hash, digest) as u64
}

// ---- the host's own

// Fills a buffer with zeros.
pub fn castulfrisa_wipe(b: &mut [u8])
    ensures { b.new ≡ zeros (length b.old) }
{
    transcript::wipe(b)
}

// The library's version, which the header repeats.
pub fn castulfrisa_version() -> u64
    ensures { result ≡ library_version }
{
    limits::LIBRARY_VERSION
}
