// Payloads of fixed bytes and a run of strings, judged whole; and the two messages of a key exchange (RFC 5656, section 4; RFC 8731): INIT
// is byte 30 and the string C, REPLY is byte 31 and the strings K_S, S and signature.
#![tactic(auto)]

ghost use Rattle.std.specs.Prelude.{◌≡◌};
ghost use Rattle.messages.specs.Payload.{judged_told, judged};
ghost use Rattle.messages.specs.Position.{breaks_at, position as position_in};

use limits::Refusal;

// How a payload is laid out: the most bytes it may have, its message number, where its strings begin, how many they are, and how many
// bytes follow them, of which so many are a boolean.
#[derive(Clone, Copy)]
pub struct Layout {
    pub most: usize,
    pub byte: u8,
    pub first: usize,
    pub count: usize,
    pub behind: usize,
    pub boolean: usize,
}

pub const INIT: Layout = Layout {
    most: limits::PAYLOAD_MOST,
    byte: 30,
    first: 1,
    count: 1,
    behind: 0,
    boolean: 0,
};

pub const REPLY: Layout = Layout {
    most: limits::PAYLOAD_MOST,
    byte: 31,
    first: 1,
    count: 3,
    behind: 0,
    boolean: 0,
};

// Judges a payload by its layout: where its strings end, or why it is none, its size, its message number, a field that passes the end, or
// bytes left over.
pub fn judge_message(payload: &[u8], l: Layout) -> Result<usize, Refusal>
    ensures { judged_told result ≡ judged l payload.now }
{
    if !limits::in_range(1, l.most, payload.len()) {
        return Err(Refusal::PayloadSize);
    }
    if payload[0] != l.byte {
        return Err(Refusal::OtherMessage);
    }
    let place = wire::skip_strings(payload, l.first, l.count).map_err(|_| Refusal::FieldPastEnd)?;
    let left = payload
        .len()
        .checked_sub(place)
        .ok_or(Refusal::FieldPastEnd)?;
    if left < l.behind {
        return Err(Refusal::FieldPastEnd);
    }
    if l.behind < left {
        return Err(Refusal::BytesLeft);
    }
    Ok(place)
}

// Where a payload breaks: where its first field that passes the end begins, or the place behind its last.
fn breaks_at(payload: &[u8], l: Layout) -> usize
    ensures { result ≡ breaks_at l payload.now }
{
    if payload.len() < l.first {
        return 1;
    }
    let place = match wire::skip_strings(payload, l.first, l.count) {
        Ok(place) => place,
        Err(cut) => return cut,
    };
    let left = payload.len() - place;
    if left < l.boolean {
        place
    } else if left < l.behind {
        place + l.boolean
    } else {
        place + l.behind
    }
}

// The position in an answer: of 12 where the field that passed the end begins, of 13 the first byte left over, of every other number 0.
// A number and not a refusal: the C interface needs it, which tells both of a step that may have been taken too.
#[tactic(auto, unfolding(crate::specs::Position::position))]
pub fn position(number: u8, payload: &[u8], l: Layout) -> usize
    ensures { result ≡ position_in number l payload.now }
{
    match number {
        12 | 13 => breaks_at(payload, l),
        _ => 0,
    }
}
