// The SSH mpint (RFC 4251, section 5): a string whose body is the shortest two's complement, the highest byte first.
#![tactic(auto)]

ghost use Rattle.std.specs.Prelude.{◌≡◌, length};
ghost use Rattle.wire.specs.Parts.{bytes_at, place_at};
ghost use Rattle.writers.specs.Writers.{written_told, wrote, leaves, string_cause};
ghost use Rattle.mpint.specs.Mpint.{excess, shortest, sign_of, mpint_told, read_mpint, mpint};

use limits::Refusal;
use wire::{Part, StringAndRest};

// The sign of the mpint at the front of an input, its body and what follows it.
#[derive(Clone, Copy, Default, PartialEq)]
pub struct MpintAndRest {
    pub sign: i8,
    pub body: Part,
    pub rest: Part,
}

// Whether two's complement bytes stay the same number without their first byte.
fn has_excess(s: &[u8]) -> bool
    ensures { result ≡ excess s.now }
{
    match s {
        [a] => *a == 0,
        [0, b, ..] => *b < 128,
        [255, b, ..] => 128 <= *b,
        _ => false,
    }
}

// The sign of shortest two's complement bytes: -1, 0 or 1.
fn sign_of(s: &[u8]) -> i8
    ensures { result ≡ sign_of s.now }
{
    match s {
        [] => 0,
        [a, ..] => if *a < 128 { 1 } else { -1 },
    }
}

// The mpint at the front of s, and what follows it; or the refusal of a string that passes the end, then of a body that could be shorter.
pub fn read_mpint(s: &[u8]) -> Result<MpintAndRest, Refusal>
    ensures { mpint_told result ≡ read_mpint s.now }
{
    let StringAndRest { body, rest } = wire::read_string(s).ok_or(Refusal::FieldPastEnd)?;
    let bytes = wire::part_of(s, body);
    if has_excess(bytes) {
        return Err(Refusal::LongMpint);
    }
    Ok(MpintAndRest {
        sign: sign_of(bytes),
        body,
        rest,
    })
}

// The body of the mpint at the front of s, as a part of s.
pub fn mpint_body(s: &[u8]) -> &[u8]
    ensures { (result.now ≡ bytes_at s.now (read_mpint s.now).body) × (result.ref_ptr ≡ place_at s.entry.ref_ptr (read_mpint s.now).body) }
{
    wire::part_of(s, read_mpint(s).unwrap_or_default().body)
}

// What follows the mpint at the front of s, as a part of s. One function for both would take a closure for one word, and be no plainer.
pub fn mpint_rest(s: &[u8]) -> &[u8]
    ensures { (result.now ≡ bytes_at s.now (read_mpint s.now).rest) × (result.ref_ptr ≡ place_at s.entry.ref_ptr (read_mpint s.now).rest) }
{
    wire::part_of(s, read_mpint(s).unwrap_or_default().rest)
}

// Two's complement bytes without the leading ones that they can do without.
fn shortened(bytes: &[u8]) -> &[u8]
    ensures { result.now ≡ shortest bytes.now }
{
    let mut rest = bytes;
    while has_excess(rest) {
        rest = &rest[1..];
    }
    rest
}

// Writes the number of two's complement bytes, none meaning zero, as an mpint at the beginning of out.
pub fn write_mpint(out: &mut [u8], bytes: &[u8]) -> Result<usize, Refusal>
    ensures { (written_told result ≡ wrote (string_cause (length out.old) (shortest bytes.now)) (mpint bytes.now)) × (out.new ≡ leaves (string_cause (length out.old) (shortest bytes.now)) (mpint bytes.now) out.old) }
{
    writers::write_string(out, shortened(bytes))
}
