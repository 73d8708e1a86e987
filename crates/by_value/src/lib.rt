// What the calls by value stand on: an exchange goes into bytes of its own, the step on bytes is called, and the exchange comes back. Only one whose
// numbers fit their bytes can go there; no step is due on another.
#![tactic(auto)]

ghost use Rattle.std.specs.Prelude.{◌≡◌};
ghost use Rattle.exchange.specs.Steps.{step_number, refused_step};
ghost use Rattle.by_value.specs.ByValue.{fits_two, fits_bytes, some_bytes, back};

use exchange::{Exchange, Lengths, Step};
use limits::Refusal;

// Whether two bytes hold each length.
#[tactic(auto, unfolding(crate::specs::ByValue::fits_two))]
fn fits_two(l: Lengths) -> bool
    ensures { result ≡ fits_two l }
{
    [l.vc, l.vs, l.ic, l.is, l.ks, l.c, l.s]
        .iter()
        .all(|n| *n <= limits::LENGTH_MOST)
}

// Whether the bytes hold what an exchange records: its lengths, and its session's numbers as far as any fits.
#[tactic(auto, unfolding(crate::specs::ByValue::fits_bytes))]
fn fits_bytes(e: Exchange) -> bool
    ensures { result ≡ fits_bytes e }
{
    fits_two(e.lens)
        && e.session.len <= limits::LENGTH_MOST
        && e.session.count <= limits::COUNT_MOST
}

// An exchange as bytes of its own, where they hold what it records.
#[tactic(auto, unfolding(stored::specs::Stored::by_size))]
pub fn lay(e: Exchange) -> Option<[u8; limits::EXCHANGE_SIZE]>
    ensures { result ≡ some_bytes e }
{
    if !fits_bytes(e) {
        return None;
    }
    let mut b = [0u8; limits::EXCHANGE_SIZE];
    values::store(&mut b, e);
    Some(b)
}

// What a step answers that is not due: 1, nothing counted, the exchange as it was, no position. No Result: the exchange is handed back on a refusal too,
// and demand 3 speaks of its number and its exchange (`Step` in `History`).
#[tactic(auto, unfolding(exchange::specs::Numbers::kind))]
pub fn not_due(e: Exchange) -> Step
    ensures { result ≡ refused_step 1 0 e }
{
    Step {
        number: Refusal::NotDue.number(),
        count: 0,
        second: 0,
        exchange: e,
        position: 0,
    }
}

// A step's number on an exchange by value: a number, as `number` of exchange's Steps is, which demand 3 speaks of.
pub fn step_number(n: u8, e: Exchange, room: usize, fed: u8) -> u8
    ensures { result ≡ step_number n e room fed }
{
    let Some(b) = lay(e) else {
        return Refusal::NotDue.number();
    };
    due::step_number(n, &b, room, fed)
}

// A step's answer by value, from what the step on bytes returned, told and left. The numbers come one by one: each step on bytes tells others of them, and
// what is made of them is the `Step` that demand 3's `History` reads in the steps' contracts.
#[tactic(auto, unfolding(crate::specs::ByValue::back))]
pub fn answer(number: u8, count: u64, second: u64, position: u64, b: &[u8]) -> Step
    ensures { result ≡ back number count second position b.now }
{
    Step {
        number,
        count: count as usize,
        second: second as usize,
        exchange: values::load(b),
        position: position as usize,
    }
}
