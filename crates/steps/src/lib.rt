// What both roles call, by value: the start, the secret, and beginning again. Each hands back its number, its counts and the exchange as it now
// is, the secret H too: the call on lent bytes, on bytes of its own. The lines that each begins with stay in each, as in `client`: the proof of a closure
// for them did not close.
#![tactic(auto)]

ghost use Rattle.std.specs.Prelude.{◌≡◌, length};
ghost use Rattle.exchange.specs.Steps.{secret as secret_step, secret_answered, room_after, started, started_room};
ghost use Rattle.exchange.specs.Again.{again_answered, again_room};

use exchange::{Classical, Exchange, Kem, SecretStep, Step};

// Starts an exchange: 2, 3, 4, or both V and both I go into the room. Its parameters, and the secret's, come one by one:
// demand 3's `Told` and `History` read them in these contracts, each by its place.
pub fn start(
    role: u8,
    method: u8,
    vc: &[u8],
    vs: &[u8],
    ic: &[u8],
    is: &[u8],
    room: &mut [u8],
) -> Step
    ensures { (result ≡ started role method vc.now vs.now ic.now is.now (length room.old)) × (room.new ≡ started_room role method vc.now vs.now ic.now is.now room.old) }
{
    let mut b = [0u8; limits::EXCHANGE_SIZE];
    let n = lent_steps::start(&mut b, role, method, vc, vs, ic, is, room);
    by_value::answer(n, 0, 0, 0, &b)
}

// Both roles, the secret: K joins the room and the record; a server's K_S and S join with it. H is handed out, zeros on a refusal.
pub fn take_secret(
    e: Exchange,
    room: &mut [u8],
    cl: Classical,
    x: &[u8],
    kem: Kem,
    k_pq: &[u8],
    ks: &[u8],
    s: &[u8],
) -> SecretStep
    ensures { let q = secret_step cl x.now kem k_pq.now ks.now s.now in
        (result ≡ secret_answered e room.old q) × (room.new ≡ room_after e room.old q) }
{
    let mut h = [0u8; limits::H_SIZE];
    let Some(mut b) = by_value::lay(e) else {
        let step = by_value::not_due(e);
        return SecretStep { step, h };
    };
    let mut count = 0u64;
    let n = lent_steps::take_secret(&mut b, room, cl, x, kem, k_pq, ks, s, &mut count, &mut h);
    let step = by_value::answer(n, count, 0, 0, &b);
    SecretStep { step, h }
}

// Begins a complete exchange again, with the V's that stand in the room: 1, 2, 3, 4, 23, or both I go in behind them.
pub fn again(e: Exchange, room: &mut [u8], method: u8, ic: &[u8], is: &[u8]) -> Step
    ensures { (result ≡ again_answered e (length room.old) method ic.now is.now) × (room.new ≡ again_room e room.old method ic.now is.now) }
{
    let Some(mut b) = by_value::lay(e) else {
        return by_value::not_due(e);
    };
    let n = lent_again::again(&mut b, room, method, ic, is);
    by_value::answer(n, 0, 0, 0, &b)
}
