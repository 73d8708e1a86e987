// Beginning again on an exchange in lent bytes that is complete: the same role and the V's that stand in the room, any method, a new I_C and I_S. Bytes
// that no exchange has are answered 1 and stay; every refusal changes nothing. The answer is a number (the C interface).
#![tactic(auto, unfolding(exchange::specs::Causes::again_cause, wire::specs::Causes::cause_if, wire::specs::Causes::cause_unless))]

ghost use Rattle.std.specs.Prelude.{◌≡◌, [], length};
ghost use Rattle.limits.specs.Refusals.{told};
ghost use Rattle.buffers.specs.Bytes.{laid};
ghost use Rattle.transcript.specs.Fields.{field, field_size, size_sum};
ghost use Rattle.exchange.specs.Causes.{again_cause};
ghost use Rattle.lent.specs.Lent.{left, lent_again};

use changes::Head;
use limits::Refusal;

// The first cause in what it is handed, and in the count: 2, 3, 4, 23.
fn again_cause(method: u8, ic: &[u8], is: &[u8], room: usize, count: u64) -> Result<(), Refusal>
    ensures { told result ≡ again_cause method ic.now is.now room count }
{
    if !exchange::is_method(method) {
        return Err(Refusal::NoMethod);
    }
    if room < limits::ROOM_LEAST {
        return Err(Refusal::RoomTooShort);
    }
    if !judge::kexinit_ok(ic) || !judge::kexinit_ok(is) {
        return Err(Refusal::BadInput);
    }
    if count == limits::COUNT_MOST {
        return Err(Refusal::CountSpent);
    }
    Ok(())
}

// Both I, one behind the other.
fn put_proposals(room: &mut [u8], at: usize, ic: &[u8], is: &[u8])
    ensures { room.new ≡ laid (laid room.old at (field ic.now)) (size_sum at (field_size (length ic.now))) (field is.now) }
{
    transcript::put_field(room, at, ic);
    let next = transcript::add_sizes(at, transcript::field_size(ic.len()));
    transcript::put_field(room, next, is);
}

// Begins a complete exchange again: 1, 2, 3, 4, 23, or both I go into the room behind both V, and the exchange is started with no K and no H.
pub fn again(ex: &mut [u8], room: &mut [u8], method: u8, ic: &[u8], is: &[u8]) -> u8
    ensures { left result [] ex.new room.new [] ≡ lent_again ex.old room.old method ic.now is.now }
{
    if !due::is_complete(ex) {
        return Refusal::NotDue.number();
    }
    if let Err(e) = again_cause(method, ic, is, room.len(), stored::count_in(ex)) {
        return e.number();
    }
    let l = stored::lengths_in(ex);
    let at = transcript::add_sizes(transcript::field_size(l.vc), transcript::field_size(l.vs));
    put_proposals(room, at, ic, is);
    let role = stored::byte_in(ex, stored::ROLE_AT);
    lent::make(
        ex,
        Head {
            stage: stored::STARTED,
            fail: 0,
            role,
            method,
            vc: l.vc,
            vs: l.vs,
            ic: ic.len(),
            is: is.len(),
        },
    );
    0
}
