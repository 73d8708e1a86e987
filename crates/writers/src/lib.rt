// The SSH string (RFC 4251, section 5) as it is written: bytes laid into a lent buffer, and what a writer answers.
#![tactic(auto)]

ghost use Rattle.std.specs.Prelude.{◌≡◌, length};
ghost use Rattle.buffers.specs.Bytes.{laid};
ghost use Rattle.wire.specs.Strings.{bytes32, string};
ghost use Rattle.writers.specs.Writers.{written_told, wrote, leaves, string_cause};

use limits::Refusal;

// Lays the four bytes of n into out from `at` on, where they fit there; else out stays.
pub fn put_u32(out: &mut [u8], at: usize, n: usize)
    ensures { out.new ≡ laid out.old at (bytes32 n) }
{
    let low = (n % (limits::STRING_MOST + 1)) as u32;
    let bytes = low.to_be_bytes();
    buffers::put_bytes(out, at, &bytes);
}

// Lays body as a string into out from `at` on, where it fits there; else out stays. A call of its own: written out where it is called, it would be a
// twentieth of the library.
#[inline(never)]
pub fn put_string(out: &mut [u8], at: usize, body: &[u8])
    ensures { out.new ≡ laid out.old at (string body.now) }
{
    if out.len().saturating_sub(at) < 4 + body.len() {
        return;
    }
    put_u32(out, at, body.len());
    buffers::put_bytes(out, at + 4, body);
}

// Writes body as a string at the beginning of out, and answers how many bytes that is.
pub fn write_string(out: &mut [u8], body: &[u8]) -> Result<usize, Refusal>
    ensures { (written_told result ≡ wrote (string_cause (length out.old) body.now) (string body.now)) × (out.new ≡ leaves (string_cause (length out.old) body.now) (string body.now) out.old) }
{
    let n = body.len();
    if limits::STRING_MOST < n {
        return Err(Refusal::BadInput);
    }
    if out.len() < 4 + n {
        return Err(Refusal::OutputTooShort);
    }
    put_string(out, 0, body);
    Ok(4 + n)
}
