// The steps that both roles take on an exchange in lent bytes: the start and the secret. Each is lent the bytes and the room, judges for
// itself and returns its number. A start takes bytes of an exchange's size, whatever they hold, and answers 1 to others, which stay; the secret answers 1 on
// bytes that no exchange has. Numbers, the count and H are told as C takes them (the C interface).
#![tactic(auto)]

ghost use Rattle.std.specs.Prelude.{◌+◌, ◌≤◌, ◌≡◌, [], ◌∷◌, ◌++◌, true, cond, eqb, length, take, set};
ghost use Rattle.limits.specs.Limits.{hash_most, k_size, server};
ghost use Rattle.buffers.specs.Bytes.{onto, laid};
ghost use Rattle.wire.specs.Parts.{part, inside, bytes_at};
ghost use Rattle.transcript.specs.Fields.{field, field_size, around};
ghost use Rattle.exchange.specs.Causes.{method_ok, k_of, h_of};
ghost use Rattle.exchange.specs.Steps.{HeadFits, head_size, fields_size, k_record, secret as secret_step};
ghost use Rattle.stored.specs.Stored.{by_size, lengths_told};
ghost use Rattle.changes.specs.Changes.{put16};
ghost use Rattle.lent.specs.Lent.{left, lent_call, lent_start};

use changes::Head;
use exchange::{Classical, Kem};
use limits::Refusal;
use methods::KForm;
use secret::Secret;
use wire::Part;

// Starts an exchange, and a session: 2, 3, 4, or both V and both I go into the room. The four come one by one, as the C interface hands them in.
pub fn start(
    ex: &mut [u8],
    role: u8,
    method: u8,
    vc: &[u8],
    vs: &[u8],
    ic: &[u8],
    is: &[u8],
    room: &mut [u8],
) -> u8
    ensures { left result [] ex.new room.new [] ≡ lent_start ex.old role method vc.now vs.now ic.now is.now room.old }
{
    if ex.len() != limits::EXCHANGE_SIZE {
        return Refusal::NotDue.number();
    }
    transcript::wipe(ex);
    if let Err(e) = judge::start_cause(role, method, vc, vs, ic, is, room.len()) {
        let n = e.number();
        lent::make(
            ex,
            Head {
                stage: stored::FAILED,
                fail: n,
                ..Head::default()
            },
        );
        return n;
    }
    put_head(room, vc, vs, ic, is);
    lent::make(
        ex,
        Head {
            stage: stored::STARTED,
            fail: 0,
            role,
            method,
            vc: vc.len(),
            vs: vs.len(),
            ic: ic.len(),
            is: is.len(),
        },
    );
    0
}

// Both V and both I at the room's beginning, one by one, as `start` is handed them.
fn put_head(room: &mut [u8], vc: &[u8], vs: &[u8], ic: &[u8], is: &[u8])
    requires { HeadFits room.old vc.now vs.now ic.now is.now }
    ensures { room.new ≡ onto room.old (field vc.now ++ field vs.now ++ field ic.now ++ field is.now) }
{
    transcript::put_field(room, 0, vc);
    let a = 4 + vc.len();
    transcript::put_field(room, a, vs);
    let b = a + 4 + vs.len();
    transcript::put_field(room, b, ic);
    let c = b + 4 + ic.len();
    transcript::put_field(room, c, is);
}

// A server's K_S and S join; a client's came with REPLY.
fn join_own(ex: &mut [u8], room: &mut [u8], role: u8, ks: &[u8], s: &[u8])
    ensures { let b = ex.old in
        let l = lengths_told b in
        (ex.new ≡ cond (eqb role server) (by_size b (put16 (put16 (set b 1 4) 13 (length ks.now)) 17 (length s.now)) b) b) × (room.new ≡ cond (eqb role server) (around room.old (head_size l) (field_size l.c) ks.now s.now) room.old) }
{
    if role != limits::SERVER {
        return;
    }
    lent::with_s(ex, room, stored::SECRET_DONE, ks, s);
}

// K in the method's form, which fits its record. Only a hybrid's is by the hash, of K_PQ and then X: where K is a number, what stands in the digest's place is not read.
// The method, here and below, is a number that is one's, which `due` found: a type for it would be made by a test that never fails.
fn k_by_method(method: u8, x: &[u8], k_pq: &[u8]) -> Secret
    requires { (method_ok method ≡ true) × (length k_pq.now + length x.now ≤ hash_most) × (length (k_of method x.now k_pq.now) ≤ k_size) }
    ensures { let k = k_of method x.now k_pq.now in
        (result.len ≡ length k) × (result.bytes ≡ k_record k) }
{
    let form = methods::k_form(method);
    let KForm::Digest = form else {
        return secret::k_of(form, x, k_pq).unwrap();
    };
    let len = methods::digest_len(method);
    let bytes = sha_2::hash_of(len, k_pq, x).unwrap_or([0u8; limits::H_SIZE]);
    secret::k_of(form, x, wire::part_of(&bytes, Part { start: 0, len })).unwrap()
}

// K joins the room behind the other fields, and the exchange. Answers where K begins.
fn join_k(ex: &mut [u8], room: &mut [u8], key: Secret) -> usize
    ensures { let b = ex.old in
        (result ≡ fields_size (lengths_told b)) × (room.new ≡ laid room.old result (bytes_at key.bytes (inside (length key.bytes) (part 0 key.len)))) × (ex.new ≡ by_size b (laid (set b 1 4) 19 key.bytes) b) }
{
    let bytes = key.bytes;
    let len = key.len;
    let l = stored::lengths_in(ex);
    let end = lent::fields_end(l);
    buffers::put_bytes(room, end, wire::part_of(&bytes, Part { start: 0, len }));
    changes::put_k(ex, stored::SECRET_DONE, &bytes);
    end
}

// H with zeros after it: the method's hash of the room's first n bytes.
fn h_of(method: u8, room: &[u8], n: usize) -> [u8; limits::H_SIZE]
    requires { (method_ok method ≡ true) × (n ≤ length room.now) × (n ≤ hash_most) }
    ensures { result ≡ h_of method (take n room.now) }
{
    sha_2::hash_of(methods::digest_len(method), &room[..n], &room[..0]).unwrap_or(
        [0u8; limits::H_SIZE],
    )
}

// H is told behind the hash input's count, and joins the exchange: from where it is told, so that no copy is taken apart byte by byte.
fn join_hash(
    ex: &mut [u8],
    room: &[u8],
    method: u8,
    n: usize,
    count: &mut u64,
    h: &mut [u8; limits::H_SIZE],
)
    requires { (method_ok method ≡ true) × (n ≤ length room.now) × (n ≤ hash_most) }
    ensures { let b = ex.old in
        let d = h_of method (take n room.now) in
        (count.new ∷ h.new ≡ n ∷ d) × (ex.new ≡ by_size b (laid b 90 d) b) }
{
    *h = h_of(method, room, n);
    changes::put_h(ex, &h[..]);
    *count = n as u64;
}

// The secret: K joins the room and the exchange, and H the exchange. Told: the hash input's count, and H; zeros on a refusal. What the primitives
// gave comes one by one, as the C interface hands it in.
pub fn take_secret(
    ex: &mut [u8],
    room: &mut [u8],
    cl: Classical,
    x: &[u8],
    kem: Kem,
    k_pq: &[u8],
    ks: &[u8],
    s: &[u8],
    count: &mut u64,
    h: &mut [u8; limits::H_SIZE],
) -> u8
    ensures { let q = secret_step cl x.now kem k_pq.now ks.now s.now in
        left result (count.new ∷ h.new) ex.new room.new [] ≡ lent_call ex.old room.old q [] }
{
    *count = 0;
    *h = [0u8; limits::H_SIZE];
    let role = stored::byte_in(ex, stored::ROLE_AT);
    let method = stored::byte_in(ex, stored::METHOD_AT);
    let fed = limits::number_told(judge_secret::secret_cause(
        role, method, cl, x, kem, k_pq, ks, s,
    ));
    let n = due::step_number(due::SECRET, ex, room.len(), fed);
    if n != 0 {
        return lent::refuse(n, ex, room);
    }
    let key = k_by_method(method, x, k_pq);
    let len = key.len;
    join_own(ex, room, role, ks, s);
    let end = join_k(ex, room, key);
    join_hash(ex, room, method, end + len, count, h);
    0
}
