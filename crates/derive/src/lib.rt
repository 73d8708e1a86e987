// A key of a complete exchange, by value: RFC 4253, section 7.2. No step: the exchange is not handed back, for nothing of it changes, and no room is lent.
#![tactic(auto)]

ghost use Rattle.std.specs.Prelude.{◌≡◌, length};
ghost use Rattle.exchange.specs.Steps.{output_after};
ghost use Rattle.keys.specs.Derived.{derive_cause, key_in};

use exchange::Exchange;
use limits::Refusal;

// The key of a letter, A to F as a byte, and of a length: 1, 4, 5, or the output begins with it. A number and no Result: `KeyHandsOut` of demand
// speaks of it.
pub fn derive(e: Exchange, letter: u8, len: usize, out: &mut [u8]) -> u8
    ensures { let o = out.old in
        let cause = derive_cause e letter len (length o) in
        (result ≡ cause) × (out.new ≡ output_after cause o (key_in e letter len)) }
{
    let Some(b) = by_value::lay(e) else {
        return Refusal::NotDue.number();
    };
    keys::derive(&b, letter as usize, len, out)
}
