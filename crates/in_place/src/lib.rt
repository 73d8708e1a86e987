// The steps on an exchange that is lent and changed in place: each calls the step by value, stores its exchange and answers its number
// and counts, the secret H too. A contract's parts are those of the step by value.
#![tactic(auto)]

ghost use Rattle.std.specs.Prelude.{◌≡◌, length};
ghost use Rattle.exchange.specs.Steps.{init, reply, secret as secret_step, verdict as verdict_step, number, answered, secret_answered, room_after, output_after};
ghost use Rattle.in_place.specs.InPlace.{counts_of, in_place_of, secret_counts_of, secret_in_place, left};

use exchange::{Classical, Exchange, Kem, SecretStep, Step};

// What a step in place answers: its number, its counts, and where a payload that is answered 12 or 13 breaks. The number stands beside them, since by
// 9.14.1 of the specification a step in place answers the same as by value.
#[derive(Clone, Copy)]
pub struct Counts {
    pub number: u8,
    pub count: usize,
    pub second: usize,
    pub position: usize,
}

// What the secret in place answers: H beside them.
#[derive(Clone, Copy)]
pub struct SecretCounts {
    pub number: u8,
    pub count: usize,
    pub second: usize,
    pub h: [u8; limits::H_SIZE],
}

impl From<Step> for Counts {
    ghost from_gives = { λ r c. c ≡ counts_of r };

    fn from(r: Step) -> Counts {
        Counts {
            number: r.number,
            count: r.count,
            second: r.second,
            position: r.position,
        }
    }
}

impl From<SecretStep> for SecretCounts {
    ghost from_gives = { λ r c. c ≡ secret_counts_of r };

    fn from(r: SecretStep) -> SecretCounts {
        let h = r.h;
        SecretCounts {
            number: r.step.number,
            count: r.step.count,
            second: r.step.second,
            h,
        }
    }
}

impl Counts {
    // The step's answer that they and an exchange are.
    fn with(self, exchange: Exchange) -> Step
        ensures { (counts_of result ≡ self) × (result.exchange ≡ exchange) }
    {
        Step {
            number: self.number,
            count: self.count,
            second: self.second,
            exchange,
            position: self.position,
        }
    }
}

// Server, INIT read, in place. It and REPLY's are alike but for the step that they call: one function over the step would say that step's contract again,
// and be no plainer.
pub fn read_init_in(e: &mut Exchange, room: &mut [u8], payload: &[u8]) -> Counts
    ensures { let q = init payload.now in
        (result ≡ in_place_of e.old room.old q) × (e.new ≡ left e.old room.old q) × (room.new ≡ room_after e.old room.old q) }
{
    let r = server::read_init(*e, room, payload);
    *e = r.exchange;
    Counts::from(r)
}

// Client, REPLY read, in place.
pub fn read_reply_in(e: &mut Exchange, room: &mut [u8], payload: &[u8]) -> Counts
    ensures { let q = reply payload.now in
        (result ≡ in_place_of e.old room.old q) × (e.new ≡ left e.old room.old q) × (room.new ≡ room_after e.old room.old q) }
{
    let r = client::read_reply(*e, room, payload);
    *e = r.exchange;
    Counts::from(r)
}

// Both roles, the secret, in place. Its parameters, here and on a copy, come one by one: they are those of the step by value.
pub fn take_secret_in(
    e: &mut Exchange,
    room: &mut [u8],
    cl: Classical,
    x: &[u8],
    kem: Kem,
    k_pq: &[u8],
    ks: &[u8],
    s: &[u8],
) -> SecretCounts
    ensures { let q = secret_step cl x.now kem k_pq.now ks.now s.now in
        (result ≡ secret_in_place e.old room.old q) × (e.new ≡ left e.old room.old q) × (room.new ≡ room_after e.old room.old q) }
{
    let r = steps::take_secret(*e, room, cl, x, kem, k_pq, ks, s);
    *e = r.step.exchange;
    SecretCounts::from(r)
}

// Client, the verdict, in place.
pub fn verdict_in(
    e: &mut Exchange,
    room: &mut [u8],
    signature: bool,
    host_key: bool,
    k_out: &mut [u8],
) -> Counts
    ensures { let q = verdict_step signature host_key (length k_out.old) in
        (result ≡ in_place_of e.old room.old q) × (e.new ≡ left e.old room.old q) × (room.new ≡ room_after e.old room.old q) × (k_out.new ≡ output_after (number e.old room.old q) k_out.old e.old.k) }
{
    let r = client::verdict(*e, room, signature, host_key, k_out);
    *e = r.exchange;
    Counts::from(r)
}

// The steps in place, each lent a local copy of the exchange: their parameters are plain, so a caller needs no walk.
pub fn read_init_on_copy(e: Exchange, room: &mut [u8], payload: &[u8]) -> Step
    ensures { let call = init payload.now in
        (result ≡ answered e room.old call) × (room.new ≡ room_after e room.old call) }
{
    let mut y = e;
    let a = read_init_in(&mut y, room, payload);
    a.with(y)
}

pub fn read_reply_on_copy(e: Exchange, room: &mut [u8], payload: &[u8]) -> Step
    ensures { let call = reply payload.now in
        (result ≡ answered e room.old call) × (room.new ≡ room_after e room.old call) }
{
    let mut y = e;
    let a = read_reply_in(&mut y, room, payload);
    a.with(y)
}

pub fn take_secret_on_copy(
    e: Exchange,
    room: &mut [u8],
    cl: Classical,
    x: &[u8],
    kem: Kem,
    k_pq: &[u8],
    ks: &[u8],
    s: &[u8],
) -> SecretStep
    ensures { let call = secret_step cl x.now kem k_pq.now ks.now s.now in
        (result ≡ secret_answered e room.old call) × (room.new ≡ room_after e room.old call) }
{
    let mut y = e;
    let a = take_secret_in(&mut y, room, cl, x, kem, k_pq, ks, s);
    let h = a.h;
    SecretStep {
        step: Step {
            number: a.number,
            count: a.count,
            second: a.second,
            exchange: y,
            position: 0,
        },
        h,
    }
}

pub fn verdict_on_copy(
    e: Exchange,
    room: &mut [u8],
    signature: bool,
    host_key: bool,
    k_out: &mut [u8],
) -> Step
    ensures { let call = verdict_step signature host_key (length k_out.old) in
        (result ≡ answered e room.old call) × (room.new ≡ room_after e room.old call) × (k_out.new ≡ output_after (number e room.old call) k_out.old e.k) }
{
    let mut y = e;
    let a = verdict_in(&mut y, room, signature, host_key, k_out);
    a.with(y)
}
