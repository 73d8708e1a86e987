// The SSH string (RFC 4251, section 5) as it is read, alone and in a run of strings, and the place of a part in an input.
#![tactic(auto)]

ghost use Rattle.std.specs.Prelude.{◌≡◌, ◌+◌, ◌<◌, ◌≤◌, length, drop};
ghost use Rattle.std.specs.Option.{MatchOption};
ghost use Rattle.wire.specs.Parts.{inside, bytes_at, place_at};
ghost use Rattle.wire.specs.Strings.{number32, number_at, field_at, walk, string_part, read_string};
ghost use Rattle.wire.specs.Told.{field_told, walk_told, read_told};

// The place of a part in an input, counted from the input's first byte. A refusal's parts are empty, at 0.
#[derive(Clone, Copy, Default, PartialEq)]
pub struct Part {
    pub start: usize,
    pub len: usize,
}

// The body of the string at the front of an input, and what follows it.
#[derive(Clone, Copy, Default, PartialEq)]
pub struct StringAndRest {
    pub body: Part,
    pub rest: Part,
}

// The part of s at a place; the empty part at its start where the place passes the end.
pub fn part_of(s: &[u8], p: Part) -> &[u8]
    ensures { (result.now ≡ bytes_at s.now (inside (length s.now) p)) × (result.ref_ptr ≡ place_at s.entry.ref_ptr (inside (length s.now) p)) }
{
    match p.start.checked_add(p.len) {
        Some(end) if end <= s.len() => &s[p.start..end],
        _ => &s[..0],
    }
}

// The big-endian number in the four bytes from `at` on; none where they pass the end.
fn length_at(s: &[u8], at: usize) -> Option<u32>
    ensures { MatchOption result (length s.now < at + 4) (λ n. (at + 4 ≤ length s.now) × (n ≡ number32 (drop at s.now))) }
{
    let bytes = s.get(at..)?.first_chunk()?;
    Some(u32::from_be_bytes(*bytes))
}

// The same number; 0 where the bytes pass the end.
pub fn u32_at(s: &[u8], at: usize) -> u32
    ensures { result ≡ number_at s.now at }
{
    length_at(s, at).unwrap_or(0)
}

// The body of the string whose four length bytes begin at `at`; none where it, or they, pass the end. Nothing is added to
// a length that was read, so that none can wrap.
pub fn field_at(s: &[u8], at: usize) -> Option<Part>
    ensures { field_told result ≡ field_at s.now at }
{
    let len = length_at(s, at)? as usize;
    let start = at + 4;
    if len <= s.len() - start {
        Some(Part { start, len })
    } else {
        None
    }
}

// Passes over k strings, the first of which begins at `at`: where the last ends, or where the first that passes the end begins.
pub fn skip_strings(s: &[u8], at: usize, k: usize) -> Result<usize, usize>
    ensures { walk_told result ≡ walk s.now at k }
{
    let mut place = at;
    for _ in 0..k {
        let Some(body) = field_at(s, place) else {
            return Err(place);
        };
        place = body.start + body.len;
    }
    Ok(place)
}

// The place of string i, counted from 0, of those that begin at `at`; the empty part where it, or one ahead of it, passes the end.
pub fn string_part(s: &[u8], at: usize, i: usize) -> Part
    ensures { result ≡ string_part s.now at i }
{
    match skip_strings(s, at, i) {
        Ok(place) => field_at(s, place).unwrap_or_default(),
        Err(_) => Part::default(),
    }
}

// The string at the front of s, and what follows it.
pub fn read_string(s: &[u8]) -> Option<StringAndRest>
    ensures { read_told result ≡ read_string s.now }
{
    let body = field_at(s, 0)?;
    let start = body.start + body.len;
    Some(StringAndRest {
        body,
        rest: Part {
            start,
            len: s.len() - start,
        },
    })
}

// The body of the string at the front of s, as a part of s.
pub fn string_body(s: &[u8]) -> &[u8]
    ensures { (result.now ≡ bytes_at s.now (read_string s.now).body) × (result.ref_ptr ≡ place_at s.entry.ref_ptr (read_string s.now).body) }
{
    part_of(s, read_string(s).unwrap_or_default().body)
}

// What follows the string at the front of s, as a part of s. One function for both would take a closure for one word, and be no plainer.
pub fn string_rest(s: &[u8]) -> &[u8]
    ensures { (result.now ≡ bytes_at s.now (read_string s.now).rest) × (result.ref_ptr ≡ place_at s.entry.ref_ptr (read_string s.now).rest) }
{
    part_of(s, read_string(s).unwrap_or_default().rest)
}
