// What a step does to an exchange in lent bytes and to the room: a refusal and a peer's fault, an exchange made, C that joins, K_S and S
// around it, K handed out. Bytes of another size stay, and count as having no lengths and no K; no step gets here with them. A refusal is a number here: a
// step answers C by it, and the bytes keep it (the C interface).
#![tactic(auto)]

ghost use Rattle.std.specs.Prelude.{◌≡◌, ◌+◌, ◌++◌, length, drop, if◌then◌else◌, nat_eq, slice_index, slice_set};
ghost use Rattle.buffers.specs.Bytes.{zeros, laid};
ghost use Rattle.wire.specs.Strings.{number_at};
ghost use Rattle.transcript.specs.Fields.{field, field_size, size_sum, around};
ghost use Rattle.exchange.specs.Steps.{head_size, fields_size, refused_room};
ghost use Rattle.methods.specs.Rows.{row_of};
ghost use Rattle.stored.specs.Stored.{by_size, lengths_told, k_kept};
ghost use Rattle.changes.specs.Changes.{put16, put_id, put_more, put_head};
ghost use Rattle.lent.specs.Lent.{refused_bytes};

use changes::Head;
use exchange::Lengths;

// The first and the last number that is a peer's fault.
const FAULT_FIRST: usize = 10;

const FAULT_LAST: usize = 18;

// Where three fields end that begin at a place.
fn fields_behind(at: usize, a: usize, b: usize, c: usize) -> usize
    ensures { result ≡ size_sum (size_sum (size_sum at (field_size a)) (field_size b)) (field_size c) }
{
    let end = transcript::add_sizes(at, transcript::field_size(a));
    let end = transcript::add_sizes(end, transcript::field_size(b));
    transcript::add_sizes(end, transcript::field_size(c))
}

// Where both V and both I end in the room.
#[tactic(auto, unfolding(exchange::specs::Steps::head_size))]
pub fn head_end(l: Lengths) -> usize
    ensures { result ≡ head_size l }
{
    fields_behind(transcript::field_size(l.vc), l.vs, l.ic, l.is)
}

// Where all fields ahead of K end.
#[tactic(auto, unfolding(exchange::specs::Steps::fields_size))]
pub fn fields_end(l: Lengths) -> usize
    ensures { result ≡ fields_size l }
{
    fields_behind(head_end(l), l.ks, l.c, l.s)
}

// Makes lent bytes those of an exchange at a stage, with no length but those of both V and both I, no K and no H. The session stays.
pub fn make(ex: &mut [u8], head: Head)
    ensures { ex.new ≡ by_size ex.old (put_head (zeros 154 ++ drop 154 ex.old) head.stage head.fail head.role head.method head.vc head.vs head.ic head.is) ex.old }
{
    if ex.len() != limits::EXCHANGE_SIZE {
        return;
    }
    transcript::wipe(&mut ex[0..stored::SESSION_AT]);
    changes::put_head(ex, head);
}

// What a refused step answers and leaves: a peer's fault wipes the room and ends the exchange, any other number changes nothing.
#[tactic(auto, using(crate::proofs::LentLaws::refused_stays))]
pub fn refuse(n: u8, ex: &mut [u8], room: &mut [u8]) -> u8
    ensures { (result ≡ n) × (ex.new ≡ refused_bytes n ex.old) × (room.new ≡ refused_room n room.old) }
{
    if !limits::in_range(FAULT_FIRST, FAULT_LAST, n as usize) {
        return n;
    }
    transcript::wipe(room);
    let role = stored::byte_in(ex, stored::ROLE_AT);
    let method = stored::byte_in(ex, stored::METHOD_AT);
    make(
        ex,
        Head {
            stage: stored::FAILED,
            fail: n,
            role,
            method,
            ..Head::default()
        },
    );
    n
}

// C joins the room at its end.
pub fn with_c(ex: &mut [u8], room: &mut [u8], stage: u8, c: &[u8])
    ensures { (ex.new ≡ by_size ex.old (put16 (slice_set ex.old 1 stage) 15 (length c.now)) ex.old) × (room.new ≡ laid room.old (fields_size (lengths_told ex.old)) (field c.now)) }
{
    let l = stored::lengths_in(ex);
    transcript::put_field(room, fields_end(l), c);
    changes::put_c(ex, stage, c.len());
}

// K_S joins ahead of C, and S behind it.
pub fn with_s(ex: &mut [u8], room: &mut [u8], stage: u8, ks: &[u8], s: &[u8])
    ensures { let l = lengths_told ex.old in
        (ex.new ≡ by_size ex.old (put16 (put16 (slice_set ex.old 1 stage) 13 (length ks.now)) 17 (length s.now)) ex.old) × (room.new ≡ around room.old (head_size l) (field_size l.c) ks.now s.now) }
{
    let l = stored::lengths_in(ex);
    transcript::put_around(room, head_end(l), transcript::field_size(l.c), ks, s);
    changes::put_s(ex, stage, ks.len(), s.len());
}

// The first exchange of a session that completes gives it its identifier.
fn name_session(ex: &mut [u8], count: u64)
    ensures { let b = ex.old in
        ex.new ≡ (if nat_eq count 0 then by_size b (put_id b (row_of (slice_index b 4)).digest_len) b else b) }
{
    if count != 0 {
        return;
    }
    let method = stored::byte_in(ex, stored::METHOD_AT);
    changes::put_id(ex, methods::digest_len(method));
}

// One more exchange of the session is complete. No step that is due finds a count that the sum would wrap.
fn one_more(ex: &mut [u8])
    ensures { ex.new ≡ by_size ex.old (put_more ex.old) ex.old }
{
    let count = stored::count_in(ex);
    name_session(ex, count);
    changes::put_count(ex, count.wrapping_add(1));
}

// The last step: K goes to its output, and the exchange is complete. Returns K's length.
pub fn finish(ex: &mut [u8], k_out: &mut [u8]) -> usize
    ensures { (result ≡ 4 + number_at (k_kept ex.old) 0) × (ex.new ≡ by_size ex.old (slice_set (put_more ex.old) 1 5) ex.old) × (k_out.new ≡ laid k_out.old 0 (k_kept ex.old)) }
{
    let k = stored::k_in(ex);
    buffers::put_bytes(k_out, 0, k);
    let size = wire::u32_at(k, 0) as usize;
    one_more(ex);
    changes::put_stage(ex, stored::COMPLETE);
    4 + size
}
