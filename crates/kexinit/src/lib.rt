// KEXINIT as it is read (RFC 4253, section 7.1): judged whole, and opened for one of its ten name-lists.
#![tactic(auto)]

ghost use Rattle.std.specs.Prelude.{◌≡◌};
ghost use Rattle.wire.specs.Parts.{bytes_at, place_at};
ghost use Rattle.wire.specs.Strings.{string_part};
ghost use Rattle.names.specs.Cursor.{cursor_of};
ghost use Rattle.kexinit.specs.Reader.{kexinit_layout, head_told, opened_told, open_head, open_list};

use limits::Refusal;
use messages::Layout;
use names::Cursor;
use wire::Part;

// Where the first list begins: behind the message byte and the cookie.
const FIRST_LIST: usize = 1 + limits::COOKIE_SIZE;

// Byte 20, 16 cookie bytes, ten name-lists; a boolean and a 32-bit number behind them.
const KEXINIT: Layout = Layout {
    most: limits::KEXINIT_MOST,
    byte: 20,
    first: FIRST_LIST,
    count: limits::LIST_COUNT,
    behind: 5,
    boolean: 1,
};

// The fields beside the lists: the cookie's place, the boolean, the reserved number.
#[derive(Clone, Copy, PartialEq)]
pub struct Fixed {
    pub cookie: Part,
    pub follows: bool,
    pub reserved: u32,
}

// Why a payload is refused, and of 12 and 13 where it breaks.
#[derive(Clone, Copy, PartialEq)]
pub struct Refused {
    pub cause: Refusal,
    pub position: usize,
}

// Where the position is not asked for.
impl From<Refused> for Refusal {
    ghost from_gives = { λ r e. e ≡ r.cause };

    fn from(r: Refused) -> Refusal {
        r.cause
    }
}

// A payload opened for one list, with a cursor at the list's beginning.
#[derive(Clone, Copy, PartialEq)]
pub struct OpenList {
    pub fixed: Fixed,
    pub cursor: Cursor,
}

// Judges a payload whole: 10 to 13, or its cookie, boolean and reserved number.
pub fn open_head(payload: &[u8]) -> Result<Fixed, Refused>
    ensures { head_told result ≡ open_head payload.now }
{
    let place = messages::judge_message(payload, KEXINIT).map_err(|cause| Refused {
        cause,
        position: messages::position(cause.number(), payload, KEXINIT),
    })?;
    Ok(Fixed {
        cookie: Part {
            start: 1,
            len: limits::COOKIE_SIZE,
        },
        follows: payload[place] != 0,
        reserved: wire::u32_at(payload, place + 1),
    })
}

// A cursor at the beginning of the list with i lists ahead of it. The payload is not judged: where that list is not whole, nothing is ahead.
pub fn list_cursor(payload: &[u8], i: usize) -> Cursor
    ensures { result ≡ cursor_of (string_part payload.now kexinit_layout.first i) }
{
    let p = wire::string_part(payload, FIRST_LIST, i);
    if p.len == 0 {
        return names::NOTHING_AHEAD;
    }
    Cursor {
        at: p.start,
        end: p.start + p.len,
    }
}

// Opens a payload for list n: 4 for a list number outside 1 to 10, then 10 to 13.
pub fn open_list(payload: &[u8], n: usize) -> Result<OpenList, Refused>
    ensures { opened_told result ≡ open_list payload.now n }
{
    if !limits::in_range(1, limits::LIST_COUNT, n) {
        return Err(Refused {
            cause: Refusal::BadInput,
            position: 0,
        });
    }
    let fixed = open_head(payload)?;
    let cursor = list_cursor(payload, n - 1);
    Ok(OpenList { fixed, cursor })
}

// The cookie of a payload opened for list n, as a part of it.
pub fn cookie_of(payload: &[u8], n: usize) -> &[u8]
    ensures { (result.now ≡ bytes_at payload.now (open_list payload.now n).head.cookie) × (result.ref_ptr ≡ place_at payload.entry.ref_ptr (open_list payload.now n).head.cookie) }
{
    match open_list(payload, n) {
        Ok(o) => wire::part_of(payload, o.fixed.cookie),
        Err(_) => &payload[..0],
    }
}
