// KEXINIT written from ten lists that stand one behind another in one buffer, with a table of their ends: a host hands in two pointers
// where there were twenty, and learns which list is bad.
#![tactic(auto)]

ghost use Rattle.std.specs.Prelude.{◌≡◌, [], ◌∷◌, cond, ◌+◌, ◌≤◌, length};
ghost use Rattle.limits.specs.Limits.{list_count};
ghost use Rattle.buffers.specs.Bytes.{laid};
ghost use Rattle.wire.specs.Strings.{string, strings};
ghost use Rattle.writers.specs.Writers.{wrote, leaves};
ghost use Rattle.proposal.specs.Proposal.{kexinit};
ghost use Rattle.arguments.specs.Arguments.{is_yes};
ghost use Rattle.lists.specs.Lists.{list_at, lists_at, good_at, first_bad, proposed, table_cause};

use limits::Refusal;

// The list from one place to another; the empty one where there is none.
fn list_at(lists: &[u8], from: u64, to: u64) -> &[u8]
    ensures { result.now ≡ list_at lists.now from to }
{
    lists.get(from as usize..to as usize).unwrap_or(&[])
}

// Whether a name-list stands from one place to another.
fn good_at(lists: &[u8], from: u64, to: u64) -> bool
    ensures { result ≡ good_at lists.now from to }
{
    match lists.get(from as usize..to as usize) {
        Some(list) => names::good_list(list),
        None => false,
    }
}

// The number of the first list, 1 to 10, that ends ahead of its beginning or behind the buffer, or is no name-list; 0 with none, and no Option:
// it goes on through a lent number, as the C interface has it.
fn first_bad(lists: &[u8], ends: &[u64; limits::LIST_COUNT]) -> u64
    ensures { result ≡ first_bad lists.now ends.now }
{
    let mut at: u64 = 0;
    for (i, end) in ends.iter().enumerate() {
        if !good_at(lists, at, *end) {
            return (i + 1) as u64;
        }
        at = *end;
    }
    0
}

// Where the first list goes, behind the message byte and the cookie; and all bytes ahead of the boolean but for the names.
const FIRST_LIST: usize = 1 + limits::COOKIE_SIZE;

const AHEAD: usize = FIRST_LIST + 4 * limits::LIST_COUNT;

// The boolean and the reserved number.
const BEHIND: usize = 5;

// The most bytes of names that a KEXINIT may have.
const NAMES_MOST: usize = limits::KEXINIT_MOST - AHEAD - BEHIND;

// Lays a list, and answers the place behind it. A call of its own, since the compiler writes the loop over the ten out.
#[inline(never)]
fn put_list(out: &mut [u8], at: usize, list: &[u8]) -> usize
    requires { at + 4 + length list.now ≤ length out.old }
    ensures { (result ≡ at + 4 + length list.now) × (out.new ≡ laid out.old at (string list.now)) }
{
    writers::put_string(out, at, list);
    at + 4 + list.len()
}

// Lays the ten lists, which end at a place that the output has, behind its cookie.
fn put_lists(out: &mut [u8], lists: &[u8], ends: &[u64; limits::LIST_COUNT])
    requires { 17 + length (strings (lists_at lists.now ends.now 0 0 list_count)) ≤ length out.old }
    ensures { out.new ≡ laid out.old 17 (strings (lists_at lists.now ends.now 0 0 list_count)) }
{
    let mut at = FIRST_LIST;
    let mut from: u64 = 0;
    for to in ends {
        at = put_list(out, at, list_at(lists, from, *to));
        from = *to;
    }
}

// The boolean as it is written.
fn flag(follows: u64) -> u8
    ensures { result ≡ cond (is_yes follows) 1 0 }
{
    u8::from(arguments::is_yes(follows))
}

// Writes a KEXINIT at the beginning of out. Told: its count, and the number of the first bad list. 4 for a bad list, for bytes behind the
// last one, for a reserved number above 32 bits, for a cookie not of 16 bytes and for a total above 4,096, then 5. Numbers, lent ones too, since
// the C interface has them.
pub fn write_lists(
    out: &mut [u8],
    cookie: &[u8],
    lists: &[u8],
    ends: &[u64; limits::LIST_COUNT],
    follows: u64,
    reserved: u64,
    told: &mut [u64; 2],
) -> u64
    ensures { let k = proposed cookie.now lists.now ends.now follows reserved in
        let cause = table_cause (length out.old) cookie.now lists.now ends.now follows reserved in
        (result ≡ cause) × (told.new ≡ (wrote cause (kexinit k)).count ∷ first_bad lists.now ends.now ∷ []) × (out.new ≡ leaves cause (kexinit k) out.old) }
{
    let bad = first_bad(lists, ends);
    *told = [0, bad];
    if bad != 0 {
        return Refusal::BadInput as u64;
    }
    if ends[9] != lists.len() as u64 {
        return Refusal::BadInput as u64;
    }
    let number = reserved as usize;
    if limits::STRING_MOST < number {
        return Refusal::BadInput as u64;
    }
    if cookie.len() != limits::COOKIE_SIZE {
        return Refusal::BadInput as u64;
    }
    if NAMES_MOST < lists.len() {
        return Refusal::BadInput as u64;
    }
    let end = lists.len() + AHEAD;
    let total = end + BEHIND;
    if out.len() < total {
        return Refusal::OutputTooShort as u64;
    }
    out[0] = 20;
    buffers::put_bytes(out, 1, cookie);
    put_lists(out, lists, ends);
    out[end] = flag(follows);
    writers::put_u32(out, end + 1, number);
    *told = [total as u64, 0];
    0
}
