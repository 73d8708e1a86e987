// The SSH name-list (RFC 4251, section 5): names parted by single commas, read one at a time by a cursor that goes by value.
#![tactic(auto)]

ghost use Rattle.std.specs.Prelude.{◌≡◌, length};
ghost use Rattle.limits.specs.Refusals.{told};
ghost use Rattle.names.specs.Names.{name_byte, good_name, good_list, first_name};
ghost use Rattle.names.specs.Cursor.{next_name, names_cause};
ghost use Rattle.names.specs.Next.{next_told};

use limits::Refusal;
use wire::Part;

// A place in a list: the next name begins at `at`, and the list ends at `end`. Behind the last name `at` is past `end`, so that the
// empty name after a trailing comma is still ahead. No iterator: the C interface needs a cursor that goes in and comes back.
#[derive(Clone, Copy, PartialEq)]
pub struct Cursor {
    pub at: usize,
    pub end: usize,
}

// The cursor of a list without bytes, which has no name. No Option: the C interface needs its two numbers.
pub const NOTHING_AHEAD: Cursor = Cursor { at: 1, end: 0 };

// A name that a cursor found: its place, and the cursor behind it and its comma.
#[derive(Clone, Copy, PartialEq)]
pub struct Named {
    pub name: Part,
    pub cursor: Cursor,
}

const COMMA: u8 = 44;

// Whether a byte may stand in a name.
fn name_byte(b: u8) -> bool
    ensures { result ≡ name_byte b }
{
    matches!(b, 33..=126) && b != COMMA
}

// Whether s is a name: 1 to 64 bytes, each 33 to 126 and no comma.
pub fn good_name(s: &[u8]) -> bool
    ensures { result ≡ good_name s.now }
{
    limits::in_range(1, limits::NAME_MOST, s.len()) && s.iter().all(|b| name_byte(*b))
}

// How long the first name of a text is: up to the first comma, else to the text's end.
fn first_len(text: &[u8]) -> usize
    ensures { result ≡ length (first_name text.now) }
{
    text.iter().position(|b| *b == COMMA).unwrap_or(text.len())
}

// The next name of a list; none at its end, and where its end passes the payload's; or that it is bad.
pub fn next_name(s: &[u8], c: Cursor) -> Result<Option<Named>, Refusal>
    ensures { next_told c result ≡ next_name s.now c }
{
    let Some(ahead) = s.get(c.at..c.end) else {
        return Ok(None);
    };
    let len = first_len(ahead);
    if !good_name(&ahead[..len]) {
        return Err(Refusal::BadName);
    }
    Ok(Some(Named {
        name: Part { start: c.at, len },
        cursor: Cursor {
            at: c.at + len + 1,
            end: c.end,
        },
    }))
}

// Whether every name that a cursor has ahead is good. No iterator beside the cursor: at a bad name the walk must end in a refusal, and a cursor that
// goes by value is what the C interface lends. The walks in `common` go by the same cursor.
pub fn judge_names(s: &[u8], c: Cursor) -> Result<(), Refusal>
    ensures { told result ≡ names_cause s.now c }
{
    let mut at = c;
    while let Some(n) = next_name(s, at)? {
        at = n.cursor;
    }
    Ok(())
}

// Whether s is a name-list: empty, or good names parted by single commas.
pub fn good_list(s: &[u8]) -> bool
    ensures { result ≡ good_list s.now }
{
    if s.is_empty() {
        return true;
    }
    let all = Cursor {
        at: 0,
        end: s.len(),
    };
    judge_names(s, all).is_ok()
}
