// An exchange as the bytes that a host lends for it: the mark of the layout, stage, fail number, role and method a byte each, seven
// lengths of two bytes, the highest first, K and H; then the session: the identifier's length in two bytes, the count in eight, the identifier. What a
// step reads of them.
#![tactic(auto)]

ghost use Rattle.std.specs.Prelude.{◌≡◌, ◌+◌, ◌*◌, ◌≤◌, ◌<◌, ◌-◌, [], length, get_or, take, drop};
ghost use Rattle.limits.specs.Limits.{exchange_size};
ghost use Rattle.stored.specs.Stored.{by_size, stage_number, fail_number, stage_of, marks_fit, fits as fitting, bytes16, number16, number64, Halves, LengthBytes, CountBytes, decoded, lengths_told, k_kept, h_kept, id_len_told, count_told, id_kept};

use exchange::{Lengths, Stage};

// Where the single bytes stand.
pub const MARK_AT: usize = 0;

pub const STAGE_AT: usize = 1;

pub const FAIL_AT: usize = 2;

pub const ROLE_AT: usize = 3;

pub const METHOD_AT: usize = 4;

// Where the lengths of K_S, C and S stand, behind those of both V and both I.
pub const KS_AT: usize = 13;

pub const C_AT: usize = 15;

pub const S_AT: usize = 17;

// Where K begins: behind five bytes and seven lengths. H follows it.
pub const K_AT: usize = 19;

pub const H_AT: usize = 90;

// Where the session begins, which a beginning and a fault keep: the identifier's length, the count, the identifier.
pub const SESSION_AT: usize = 154;

pub const COUNT_AT: usize = 156;

pub const ID_AT: usize = 164;

// The numbers of the stages.
pub const STARTED: u8 = 0;

pub const C_SENT: u8 = 1;

pub const INIT_READ: u8 = 2;

pub const REPLY_READ: u8 = 3;

pub const SECRET_DONE: u8 = 4;

pub const COMPLETE: u8 = 5;

pub const FAILED: u8 = 6;

// The number of a stage: 0 started, 1 own C sent, 2 INIT read, 3 REPLY read, 4 secret done, 5 complete, 6 failed.
pub fn stage_number(stage: Stage) -> u8
    ensures { result ≡ stage_number stage }
{
    match stage {
        Stage::Started => STARTED,
        Stage::CSent => C_SENT,
        Stage::InitRead => INIT_READ,
        Stage::ReplyRead => REPLY_READ,
        Stage::SecretDone => SECRET_DONE,
        Stage::Complete => COMPLETE,
        Stage::Failed(_) => FAILED,
    }
}

// The number that ended a failed exchange, else 0.
pub fn fail_number(stage: Stage) -> u8
    ensures { result ≡ fail_number stage }
{
    match stage {
        Stage::Failed(n) => n,
        _ => 0,
    }
}

// The stage of a number, with what ended it where that is failed.
#[tactic(auto, unfolding(crate::specs::Stored::stage_of))]
pub fn stage_of(stage: u8, fail: u8) -> Stage
    ensures { result ≡ stage_of stage fail }
{
    match stage {
        STARTED => Stage::Started,
        C_SENT => Stage::CSent,
        INIT_READ => Stage::InitRead,
        REPLY_READ => Stage::ReplyRead,
        SECRET_DONE => Stage::SecretDone,
        COMPLETE => Stage::Complete,
        _ => Stage::Failed(fail),
    }
}

// Whether an exchange can have this mark, stage and fail number.
#[tactic(auto, unfolding(crate::specs::Stored::marks_fit))]
fn marks_fit(mark: u8, stage: u8, fail: u8) -> bool
    ensures { result ≡ marks_fit mark stage fail }
{
    mark == limits::EXCHANGE_MARK && stage <= FAILED && (stage == FAILED || fail == 0)
}

// Whether an exchange has these bytes.
#[tactic(auto, using(crate::proofs::StoredLaws::size_unfit, crate::proofs::StoredLaws::marks_fits))]
pub fn fits(b: &[u8]) -> bool
    ensures { result ≡ fitting b.now }
{
    b.len() == limits::EXCHANGE_SIZE && marks_fit(b[MARK_AT], b[STAGE_AT], b[FAIL_AT])
}

// The byte at a place, 0 behind the end.
pub fn byte_in(b: &[u8], at: usize) -> u8
    ensures { result ≡ get_or b.now at 0 }
{
    b.get(at).copied().unwrap_or(0)
}

// The stage that bytes tell; a byte that is not there counts as 0.
#[tactic(auto, unfolding(crate::specs::Stored::decoded))]
pub fn stage_in(b: &[u8]) -> Stage
    ensures { result ≡ (decoded b.now).stage }
{
    stage_of(byte_in(b, STAGE_AT), byte_in(b, FAIL_AT))
}

// The two bytes of a length.
#[tactic(auto, using(crate::proofs::StoredLaws::last_two))]
pub fn length_bytes(n: usize) -> [u8; 2]
    ensures { result ≡ bytes16 n }
{
    let [.., high, low] = n.to_be_bytes();
    [high, low]
}

// The number in the two bytes from `at` on.
fn u16_at(b: &[u8], at: usize) -> usize
    requires { at + 2 ≤ length b.now }
    ensures { (result ≡ number16 b.now at) × Halves b.now at }
{
    usize::from(u16::from_be_bytes(*b[at..at + 2].as_array().unwrap()))
}

// The lengths that bytes tell; none in bytes of another size. Here and below bytes of another size are told by their length: `as_array` would say it in as
// many words, and what it gives is indexed as they are.
#[tactic(auto, using(crate::proofs::StoredLaws::size_taken, crate::proofs::StoredLaws::size_left))]
pub fn lengths_in(b: &[u8]) -> Lengths
    ensures { (result ≡ lengths_told b.now) × (length b.now ≡ exchange_size → LengthBytes b.now) }
{
    if b.len() != limits::EXCHANGE_SIZE {
        return Lengths::default();
    }
    Lengths {
        vc: u16_at(b, 5),
        vs: u16_at(b, 7),
        ic: u16_at(b, 9),
        is: u16_at(b, 11),
        ks: u16_at(b, KS_AT),
        c: u16_at(b, C_AT),
        s: u16_at(b, S_AT),
    }
}

// The bytes from a place to another of an exchange's; none of bytes of another size.
#[tactic(auto, using(crate::proofs::StoredLaws::size_taken, crate::proofs::StoredLaws::size_left))]
fn part(b: &[u8], from: usize, to: usize) -> &[u8]
    requires { (from ≤ to) × (to ≤ exchange_size) }
    ensures { result.now ≡ by_size b.now (take (to - from) (drop from b.now)) [] }
{
    if b.len() != limits::EXCHANGE_SIZE {
        return &[];
    }
    &b[from..to]
}

// K's record among the bytes; empty in bytes of another size.
pub fn k_in(b: &[u8]) -> &[u8]
    ensures { result.now ≡ k_kept b.now }
{
    part(b, K_AT, H_AT)
}

// H among the bytes; empty in bytes of another size.
pub fn h_in(b: &[u8]) -> &[u8]
    ensures { result.now ≡ h_kept b.now }
{
    part(b, H_AT, SESSION_AT)
}

// The length of the session identifier; 0 in bytes of another size. It and the count stay two: one function for both would take a closure for one
// word, and be no plainer.
#[tactic(auto, using(crate::proofs::StoredLaws::size_taken, crate::proofs::StoredLaws::size_left))]
pub fn id_len_in(b: &[u8]) -> usize
    ensures { (result ≡ id_len_told b.now) × (length b.now ≡ exchange_size → Halves b.now 154) }
{
    if b.len() != limits::EXCHANGE_SIZE {
        return 0;
    }
    u16_at(b, SESSION_AT)
}

// The number in the eight bytes from `at` on.
fn u64_at(b: &[u8], at: usize) -> u64
    requires { at + 8 ≤ length b.now }
    ensures { (result ≡ number64 b.now at) × CountBytes b.now at }
{
    u64::from_be_bytes(*b[at..at + 8].as_array().unwrap())
}

// How many exchanges were completed; 0 in bytes of another size.
#[tactic(auto, using(crate::proofs::StoredLaws::size_taken, crate::proofs::StoredLaws::size_left))]
pub fn count_in(b: &[u8]) -> u64
    ensures { (result ≡ count_told b.now) × (length b.now ≡ exchange_size → CountBytes b.now 156) }
{
    if b.len() != limits::EXCHANGE_SIZE {
        return 0;
    }
    u64_at(b, COUNT_AT)
}

// The session identifier among the bytes, all 64 of them; empty in bytes of another size.
pub fn id_in(b: &[u8]) -> &[u8]
    ensures { result.now ≡ id_kept b.now }
{
    part(b, ID_AT, limits::EXCHANGE_SIZE)
}
