// KEXINIT as it is written (RFC 4253, section 7.1).
#![tactic(auto)]

ghost use Rattle.std.specs.Prelude.{◌≡◌, ◌+◌, ◌≤◌, length};
ghost use Rattle.buffers.specs.Bytes.{laid};
ghost use Rattle.wire.specs.Strings.{strings};
ghost use Rattle.writers.specs.Writers.{written_told, wrote, leaves};
ghost use Rattle.proposal.specs.Proposal.{kexinit_of, kexinit, write_cause};
ghost use Rattle.proposal.specs.Total.{bodies, with_list, total, some_total};

use limits::Refusal;

// Where the first list goes, behind the message byte and the cookie; and all bytes beside the lists, with the boolean and the reserved number.
const FIRST_LIST: usize = 1 + limits::COOKIE_SIZE;

const FIXED_BYTES: usize = FIRST_LIST + 5;

// A total with one list more; none where it passes what a KEXINIT may have or the list is bad.
fn with_list(total: usize, list: &[u8]) -> Option<usize>
    ensures { result ≡ some_total (with_list total list.now) }
{
    let next = total.checked_add(4)?.checked_add(list.len())?;
    if next <= limits::KEXINIT_MOST && names::good_list(list) {
        Some(next)
    } else {
        None
    }
}

// How many bytes a KEXINIT of some lists has; none where they are more than it may have or a list is bad.
fn total_of(lists: &[&[u8]]) -> Option<usize>
    ensures { result ≡ some_total (total 22 (bodies lists.now)) }
{
    let mut total = FIXED_BYTES;
    for list in lists {
        total = with_list(total, list)?;
    }
    Some(total)
}

// Lays lists into an output that they fit, and returns the place behind them.
fn put_lists(out: &mut [u8], at: usize, lists: &[&[u8]]) -> usize
    requires { at + length (strings (bodies lists.now)) ≤ length out.old }
    ensures { (result ≡ at + length (strings (bodies lists.now))) × (out.new ≡ laid out.old at (strings (bodies lists.now))) }
{
    let mut place = at;
    for list in lists {
        writers::put_string(out, place, list);
        place += 4 + list.len();
    }
    place
}

// Writes a KEXINIT at the beginning of out: 4 for a cookie not of 16 bytes, a bad list or a total above 4,096, then 5. The lists stand in the
// message's order: methods, host keys, then encryption, MAC, compression and languages, each client to server first.
pub fn write_kexinit(
    out: &mut [u8],
    cookie: &[u8],
    lists: &[&[u8]; limits::LIST_COUNT],
    follows: bool,
    reserved: u32,
) -> Result<usize, Refusal>
    ensures { let k = kexinit_of cookie.now (bodies lists.now) follows reserved in
        (written_told result ≡ wrote (write_cause (length out.old) k) (kexinit k)) × (out.new ≡ leaves (write_cause (length out.old) k) (kexinit k) out.old) }
{
    if cookie.len() != limits::COOKIE_SIZE {
        return Err(Refusal::BadInput);
    }
    let total = total_of(lists).ok_or(Refusal::BadInput)?;
    if out.len() < total {
        return Err(Refusal::OutputTooShort);
    }
    out[0] = 20;
    buffers::put_bytes(out, 1, cookie);
    let end = put_lists(out, FIRST_LIST, lists);
    out[end] = u8::from(follows);
    writers::put_u32(out, end + 1, reserved as usize);
    Ok(total)
}
