// Calls on an exchange in lent bytes that are no steps: the places of INIT's and REPLY's strings, how far the exchange has come, and its session. Nothing
// changes but what is told, by a number and through lent numbers (the C interface).
#![tactic(auto)]

ghost use Rattle.std.specs.Prelude.{◌≡◌, [], ◌∷◌, cond, eqb, length};
ghost use Rattle.limits.specs.Limits.{h_size};
ghost use Rattle.limits.specs.Refusals.{told};
ghost use Rattle.buffers.specs.Bytes.{zeros, laid};
ghost use Rattle.messages.specs.Messages.{field_part};
ghost use Rattle.exchange.specs.Steps.{init, reply, step_number, number, step_part};
ghost use Rattle.stored.specs.Stored.{stage_number, fail_number, decoded, by_fit, id_kept};
ghost use Rattle.lent.specs.Lent.{place_of, session_known};

use limits::Refusal;

// The number that step n would answer to a message with this cause against it, and, where it is 0, the place of the message's string i.
fn told_part(
    n: u8,
    cause: Result<(), Refusal>,
    ex: &[u8],
    room: &[u8],
    payload: &[u8],
    i: u64,
    place: &mut [u64; 2],
) -> u8
    ensures { let b = ex.now in
        (result ≡ by_fit b (step_number n (decoded b) (length room.now) (told cause)) 1) × (place.new ≡ cond (eqb result 0) (place_of (field_part payload.now i)) (zeros 2)) }
{
    *place = [0; 2];
    let number = due::step_number(n, ex, room.len(), limits::number_told(cause));
    if number != 0 {
        return number;
    }
    let p = wire::string_part(payload, 1, i as usize);
    *place = [p.start as u64, p.len as u64];
    0
}

// The number that INIT's step would answer, and the place of its string i.
pub fn init_part(ex: &[u8], room: &[u8], payload: &[u8], i: u64, place: &mut [u64; 2]) -> u8
    ensures { let b = ex.now in
        let q = init payload.now in
        (result ≡ by_fit b (number (decoded b) room.now q) 1) × (place.new ≡ by_fit b (place_of (step_part (decoded b) room.now q payload.now i)) (zeros 2)) }
{
    let cause = judge_peer::init_cause(stored::byte_in(ex, stored::METHOD_AT), payload);
    told_part(due::READ_INIT, cause, ex, room, payload, i, place)
}

// The number that REPLY's step would answer, and the place of its string i.
pub fn reply_part(ex: &[u8], room: &[u8], payload: &[u8], i: u64, place: &mut [u64; 2]) -> u8
    ensures { let b = ex.now in
        let q = reply payload.now in
        (result ≡ by_fit b (number (decoded b) room.now q) 1) × (place.new ≡ by_fit b (place_of (step_part (decoded b) room.now q payload.now i)) (zeros 2)) }
{
    let cause = judge_peer::reply_cause(stored::byte_in(ex, stored::METHOD_AT), payload);
    told_part(due::READ_REPLY, cause, ex, room, payload, i, place)
}

// How far an exchange has come: its stage's number, the number that ended it, its role and its method.
#[tactic(auto, using(stored::proofs::StoredLaws::role_read, stored::proofs::StoredLaws::method_read, stored::proofs::StoredLaws::fit_taken, stored::proofs::StoredLaws::fit_left))]
pub fn state(ex: &[u8], told: &mut [u64; 4]) -> u8
    ensures { let b = ex.now in
        let e = decoded b in
        (result ≡ by_fit b 0 1) × (told.new ≡ by_fit b (stage_number e.stage ∷ fail_number e.stage ∷ e.role ∷ e.method ∷ []) (zeros 4)) }
{
    *told = [0; 4];
    if !stored::fits(ex) {
        return Refusal::NotDue.number();
    }
    let stage = stored::stage_in(ex);
    *told = [
        stored::stage_number(stage) as u64,
        stored::fail_number(stage) as u64,
        stored::byte_in(ex, stored::ROLE_AT) as u64,
        stored::byte_in(ex, stored::METHOD_AT) as u64,
    ];
    0
}

// The session identifier as the bytes have it; zeros in bytes of another size.
fn id_of(ex: &[u8]) -> [u8; limits::H_SIZE]
    ensures { result ≡ laid (zeros h_size) 0 (id_kept ex.now) }
{
    buffers::in_zeros(stored::id_in(ex))
}

// The session of an exchange at any stage: the identifier's length, how many exchanges were completed, and the identifier's 64 bytes. 1, and zeros,
// where the length does not go with the count, so that what is told can be taken by it.
pub fn session(ex: &[u8], told: &mut [u64; 2], id: &mut [u8; limits::H_SIZE]) -> u8
    ensures { let b = ex.now in
        let s = (decoded b).session in
        (result ≡ cond (session_known b) 0 1) × (told.new ≡ cond (session_known b) (s.len ∷ s.count ∷ []) (zeros 2)) × (id.new ≡ cond (session_known b) s.id (zeros h_size)) }
{
    *told = [0; 2];
    *id = [0u8; limits::H_SIZE];
    if !stored::fits(ex) {
        return Refusal::NotDue.number();
    }
    let len = stored::id_len_in(ex);
    let count = stored::count_in(ex);
    if !due::id_fits(len, count) {
        return Refusal::NotDue.number();
    }
    *id = id_of(ex);
    *told = [len as u64, count];
    0
}
