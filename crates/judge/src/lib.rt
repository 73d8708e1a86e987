// The causes in what a start or a step is handed (SPECIFICATION 9.5 to 9.11), but for the secret step's.
#![tactic(auto, unfolding(exchange::specs::Causes::kexinit_ok, exchange::specs::Causes::start_cause, exchange::specs::Causes::own_c_cause, exchange::specs::Causes::sign_cause, exchange::specs::Causes::verdict_cause, wire::specs::Causes::cause_if, wire::specs::Causes::cause_unless))]

ghost use Rattle.std.specs.Prelude.{◌≡◌};
ghost use Rattle.limits.specs.Refusals.{told};
ghost use Rattle.exchange.specs.Causes.{kexinit_ok, start_cause, own_c_cause, sign_cause, verdict_cause};

use limits::Refusal;

// Whether i may stand as a KEXINIT payload in the hash input: its length, and byte 20 first.
pub fn kexinit_ok(i: &[u8]) -> bool
    ensures { result ≡ kexinit_ok i.now }
{
    i.len() <= limits::KEXINIT_MOST && i.first() == Some(&20)
}

// The first cause against a start: 2, 3, 4. The fields come one by one, as the C interface hands them in.
pub fn start_cause(
    role: u8,
    method: u8,
    vc: &[u8],
    vs: &[u8],
    ic: &[u8],
    is: &[u8],
    room: usize,
) -> Result<(), Refusal>
    ensures { told result ≡ start_cause role method vc.now vs.now ic.now is.now room }
{
    if !exchange::is_method(method) || !exchange::is_role(role) {
        return Err(Refusal::NoMethod);
    }
    if room < limits::ROOM_LEAST {
        return Err(Refusal::RoomTooShort);
    }
    if !judge_versions::version_ok(vc) || !judge_versions::version_ok(vs) {
        return Err(Refusal::BadInput);
    }
    if !kexinit_ok(ic) || !kexinit_ok(is) {
        return Err(Refusal::BadInput);
    }
    Ok(())
}

// The first cause against own C: 4, 5.
pub fn own_c_cause(method: u8, c: &[u8], out: usize) -> Result<(), Refusal>
    ensures { told result ≡ own_c_cause method c.now out }
{
    let shape = methods::c_shape(method);
    if !methods::has_form(shape, c) {
        return Err(Refusal::BadInput);
    }
    if out < limits::INIT_LEAST {
        return Err(Refusal::OutputTooShort);
    }
    Ok(())
}

// The first cause against the signature step: 4, 5.
pub fn sign_cause(signature: &[u8], out: usize, k_out: usize) -> Result<(), Refusal>
    ensures { told result ≡ sign_cause signature.now out k_out }
{
    if !limits::in_range(1, limits::BLOB_MOST, signature.len()) {
        return Err(Refusal::BadInput);
    }
    if out < limits::REPLY_LEAST || k_out < limits::K_SIZE {
        return Err(Refusal::OutputTooShort);
    }
    Ok(())
}

// The first cause against the verdict: 5, 18.
pub fn verdict_cause(signature: bool, host_key: bool, k_out: usize) -> Result<(), Refusal>
    ensures { told result ≡ verdict_cause signature host_key k_out }
{
    if k_out < limits::K_SIZE {
        return Err(Refusal::OutputTooShort);
    }
    if !signature || !host_key {
        return Err(Refusal::VerdictNo);
    }
    Ok(())
}
