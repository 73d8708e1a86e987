// Whether a step is due on an exchange in lent bytes, and a step's number: that the bytes are one's and fit comes first, then the room, then
// what was fed. Whether the exchange is complete.
#![tactic(auto)]

ghost use Rattle.std.specs.Prelude.{◌≡◌, ◌≤◌, length, true, ◌&&◌};
ghost use Rattle.methods.specs.Rows.{row_of};
ghost use Rattle.methods.specs.declared.KForm.TheVariants.{Mpint};
ghost use Rattle.exchange.specs.Record.{next_step, has_c, has_s, has_k, c_fits, s_fits, lengths_fit, k_body_fits, k_fits, count_fits, id_fits, session_fits, record_fits, due, is_complete, completed};
ghost use Rattle.exchange.specs.Steps.{step_number};
ghost use Rattle.stored.specs.Stored.{fits, Halves, CountBytes, NumberBytes, decoded, by_fit};

use exchange::{Lengths, Stage};
use limits::Refusal;
use methods::KForm;

// The steps, as `step_no` of exchange's Steps numbers them. They stay numbers: `step_number`'s contract holds of each u8, and an enum would ask more of callers.
pub const OWN_C: u8 = 1;

pub const READ_INIT: u8 = 2;

pub const READ_REPLY: u8 = 3;

pub const SECRET: u8 = 4;

pub const SIGN: u8 = 5;

pub const VERDICT: u8 = 6;

// The step that comes next on a record, 0 for none. No Option: where none is next and the record fits, `due` holds of 0, and `is_due` promises it of each number.
fn next_step(role: u8, stage: Stage) -> u8
    ensures { result ≡ next_step role stage }
{
    match (role, stage) {
        (limits::CLIENT, Stage::Started) => OWN_C,
        (limits::CLIENT, Stage::CSent) => READ_REPLY,
        (limits::CLIENT, Stage::ReplyRead) => SECRET,
        (limits::CLIENT, Stage::SecretDone) => VERDICT,
        (limits::SERVER, Stage::Started) => READ_INIT,
        (limits::SERVER, Stage::InitRead) => SECRET,
        (limits::SERVER, Stage::SecretDone) => SIGN,
        _ => 0,
    }
}

// Whether C stands in the room at a stage.
fn has_c(stage: Stage) -> bool
    ensures { result ≡ has_c stage }
{
    !matches!(stage, Stage::Started | Stage::Failed(_))
}

// Whether K_S and S stand in the room at a stage.
fn has_s(stage: Stage) -> bool
    ensures { result ≡ has_s stage }
{
    matches!(
        stage,
        Stage::ReplyRead | Stage::SecretDone | Stage::Complete
    )
}

// Whether K is recorded at a stage.
fn has_k(stage: Stage) -> bool
    ensures { result ≡ has_k stage }
{
    matches!(stage, Stage::SecretDone | Stage::Complete)
}

// Whether the recorded lengths fit a stage.
#[tactic(auto, unfolding(exchange::specs::Record::lengths_fit))]
fn lengths_fit(method: u8, stage: Stage, l: Lengths) -> bool
    ensures { result ≡ lengths_fit (row_of method) stage l }
{
    limits::in_range(1, limits::VERSION_MOST, l.vc)
        && limits::in_range(1, limits::VERSION_MOST, l.vs)
        && limits::in_range(1, limits::KEXINIT_MOST, l.ic)
        && limits::in_range(1, limits::KEXINIT_MOST, l.is)
        && c_fits(method, stage, l)
        && s_fits(method, stage, l)
}

// Whether the recorded length of C fits a stage.
#[tactic(auto, unfolding(exchange::specs::Record::c_fits))]
fn c_fits(method: u8, stage: Stage, l: Lengths) -> bool
    ensures { result ≡ c_fits (row_of method) stage l }
{
    if has_c(stage) {
        methods::length_fits(methods::c_shape(method), l.c)
    } else {
        l.c == 0
    }
}

// Whether the recorded lengths of K_S and S fit a stage.
#[tactic(auto, unfolding(exchange::specs::Record::s_fits))]
fn s_fits(method: u8, stage: Stage, l: Lengths) -> bool
    ensures { result ≡ s_fits (row_of method) stage l }
{
    if has_s(stage) {
        limits::in_range(1, limits::BLOB_MOST, l.ks)
            && methods::length_fits(methods::s_shape(method), l.s)
    } else {
        l.ks == 0 && l.s == 0
    }
}

// Whether K's recorded length fits a stage.
#[tactic(auto, using(wire::proofs::StringLaws::number_at_lem), unfolding(exchange::specs::Record::k_fits))]
fn k_fits(method: u8, stage: Stage, k: &[u8]) -> bool
    requires { 4 ≤ length k.now }
    ensures { result ≡ k_fits (row_of method) stage k.now }
{
    if !has_k(stage) {
        return true;
    }
    let n = wire::u32_at(k, 0) as usize;
    match methods::k_form(method) {
        KForm::Mpint => mpint_fits(method, n),
        KForm::Digest => n == methods::digest_len(method),
    }
}

// Whether an mpint K may have n bytes behind its length.
fn mpint_fits(method: u8, n: usize) -> bool
    ensures { result ≡ k_body_fits Mpint (row_of method) n }
{
    n.saturating_sub(1) <= methods::x_len(method) && (1 <= n || !methods::zero_check(method))
}

// Whether a stage is the last.
fn is_last(stage: Stage) -> bool
    ensures { result ≡ is_complete stage }
{
    stage == Stage::Complete
}

// Whether a complete exchange, or another, can have this count.
fn count_fits(complete: bool, n: u64) -> bool
    ensures { result ≡ count_fits complete n }
{
    if complete {
        (1..=limits::COUNT_MOST).contains(&n)
    } else {
        n < limits::COUNT_MOST
    }
}

// Whether an identifier of so many bytes goes with a count.
pub fn id_fits(len: usize, count: u64) -> bool
    ensures { result ≡ id_fits len count }
{
    if count == 0 {
        len == 0
    } else {
        sha_2::is_known(len)
    }
}

// Whether the session's numbers fit a stage. Both are read, so that their bytes are known to be below 256.
#[tactic(auto, using(crate::proofs::FitLaws::len_read, crate::proofs::FitLaws::count_read, stored::proofs::StoredLaws::fits_known), unfolding(exchange::specs::Record::session_fits))]
fn session_fits(b: &[u8], stage: Stage) -> bool
    requires { fits b.now ≡ true }
    ensures { (result ≡ session_fits stage (decoded b.now).session) × Halves b.now 154 × CountBytes b.now 156 }
{
    let count = stored::count_in(b);
    let len = stored::id_len_in(b);
    count_fits(is_last(stage), count) && id_fits(len, count)
}

// Whether what an exchange in lent bytes records fits its stage. Where it does, its numbers were read, so that their bytes are known to be
// below 256.
#[tactic(auto, using(stored::proofs::StoredLaws::method_read, crate::proofs::FitLaws::lens_read, crate::proofs::FitLaws::k_read, crate::proofs::FitLaws::k_size_lem, stored::proofs::StoredLaws::fits_known), unfolding(exchange::specs::Record::record_fits))]
fn record_fits(b: &[u8], stage: Stage) -> bool
    requires { (fits b.now ≡ true) × (stage ≡ (decoded b.now).stage) }
    ensures { (result ≡ record_fits (decoded b.now)) × (result ≡ true → NumberBytes b.now) }
{
    let method = stored::byte_in(b, stored::METHOD_AT);
    let l = stored::lengths_in(b);
    exchange::is_method(method)
        && lengths_fit(method, stage, l)
        && k_fits(method, stage, stored::k_in(b))
        && session_fits(b, stage)
}

// Whether a step is due on an exchange in lent bytes.
#[tactic(auto, using(stored::proofs::StoredLaws::role_read), unfolding(exchange::specs::Record::due))]
fn is_due(n: u8, b: &[u8]) -> bool
    ensures { (result ≡ (fits b.now && due n (decoded b.now))) × (result ≡ true → NumberBytes b.now) }
{
    if !stored::fits(b) {
        return false;
    }
    let stage = stored::stage_in(b);
    next_step(stored::byte_in(b, stored::ROLE_AT), stage) == n && record_fits(b, stage)
}

// Whether an exchange in lent bytes is complete, and what it records fits.
#[tactic(auto, using(stored::proofs::StoredLaws::role_read), unfolding(exchange::specs::Record::completed))]
pub fn is_complete(b: &[u8]) -> bool
    ensures { (result ≡ (fits b.now && completed (decoded b.now))) × (result ≡ true → NumberBytes b.now) }
{
    if !stored::fits(b) {
        return false;
    }
    let stage = stored::stage_in(b);
    let role = stored::byte_in(b, stored::ROLE_AT);
    is_last(stage) && exchange::is_role(role) && record_fits(b, stage)
}

// A step's number: 1 where it is not due, 3 where the room is too short, then the first cause in what it was fed. Numbers, since its contract holds of
// each that is fed: a refusal would ask more of callers. A call of its own: eight calls
// begin with it.
#[inline(never)]
#[tactic(auto, using(crate::proofs::FitLaws::number_room, crate::proofs::FitLaws::number_fed, crate::proofs::FitLaws::number_on, crate::proofs::FitLaws::not_due_on, crate::proofs::FitLaws::due_fits))]
pub fn step_number(n: u8, b: &[u8], room: usize, fed: u8) -> u8
    ensures { (result ≡ by_fit b.now (step_number n (decoded b.now) room fed) 1) × ((result ≡ 1 → ⊥) → NumberBytes b.now) }
{
    if !is_due(n, b) {
        return Refusal::NotDue.number();
    }
    if room < limits::ROOM_LEAST {
        return Refusal::RoomTooShort.number();
    }
    fed
}
