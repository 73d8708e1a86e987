// RFC 4253, section 7.2: a key of a complete exchange in lent bytes, laid into the caller's. Deriving is no step: the exchange is only read.
// The answer is a number (the C interface).
#![tactic(auto)]

ghost use Rattle.std.specs.Prelude.{◌≡◌, true, List, ◌∷◌, ◌++◌, ℕ, ◌+◌, ◌≤◌, length, take};
ghost use Rattle.limits.specs.Limits.{k_size, h_size, key_most, hash_most};
ghost use Rattle.limits.specs.Refusals.{told};
ghost use Rattle.buffers.specs.Bytes.{over};
ghost use Rattle.sha_words.specs.Constants.{known};
ghost use Rattle.sha_words.specs.Message.{sha2, sized};
ghost use Rattle.exchange.specs.Steps.{output_after};
ghost use Rattle.stored.specs.Stored.{decoded, by_fit};
ghost use Rattle.keys.specs.Keys.{key_of};
ghost use Rattle.keys.specs.Derived.{derive_cause, key_in};

use limits::Refusal;

// Lays src into out from `at` on, as far as out goes.
fn put_truncated(out: &mut [u8], at: usize, src: &[u8])
    requires { at ≤ length out.old }
    ensures { out.new ≡ take (length out.old) (over out.old at src.now) }
{
    let fits = src.len().min(out.len() - at);
    buffers::put_bytes(out, at, &src[..fits]);
}

// The digest of a and then b; zeros follow. The kind, here and below, is a number that is known: as a type it would come from `digest_len` by a test that
// never fails, in more lines than the three clauses that say it.
fn hash(kind: usize, a: &[u8], b: &[u8]) -> [u8; limits::H_SIZE]
    requires { (known kind ≡ true) × (length a.now + length b.now ≤ hash_most) }
    ensures { result ≡ sized h_size (sha2 kind (a.now ++ b.now)) }
{
    sha_2::hash_of(kind, a, b).unwrap_or([0u8; limits::H_SIZE])
}

// Fills out with the key of K and H, in kh, and of the letter and then the identifier, in rest. The key so far is read from out itself.
fn lay_key(kind: usize, kh: &[u8], rest: &[u8], out: &mut [u8])
    requires { (known kind ≡ true) × (length kh.now + length rest.now ≤ hash_most) × (length kh.now + length out.old ≤ hash_most) }
    ensures { (k h : List ℕ) (letter : ℕ) (id : List ℕ) → kh.now ≡ k ++ h → rest.now ≡ letter ∷ id → out.new ≡ key_of kind k h letter id (length out.old) }
{
    let first = hash(kind, kh, rest);
    put_truncated(out, 0, &first[0..kind]);
    for at in (kind..out.len()).step_by(kind) {
        let next = hash(kind, kh, &out[0..at]);
        put_truncated(out, at, &next[0..kind]);
    }
}

// Fills out with the key of K, H, a letter and the session identifier.
fn write_key(kind: usize, k: &[u8], h: &[u8], letter: u8, id: &[u8], out: &mut [u8])
    requires { (known kind ≡ true) × (length k.now ≤ k_size) × (length h.now ≤ h_size) × (length id.now ≤ h_size) × (length out.old ≤ key_most) }
    ensures { out.new ≡ key_of kind k.now h.now letter id.now (length out.old) }
{
    let mut kh = [0u8; limits::K_SIZE + limits::H_SIZE];
    buffers::put_both(&mut kh, k, h);
    let one = [letter];
    let mut rest = [0u8; 1 + limits::H_SIZE];
    buffers::put_both(&mut rest, &one, id);
    let kh_len = k.len() + h.len();
    let rest_len = 1 + id.len();
    lay_key(kind, &kh[0..kh_len], &rest[0..rest_len], out);
}

// The first cause against deriving: 1 unless the exchange is complete, 4 for the letter or the length, 5 where the output is shorter.
#[tactic(auto, unfolding(crate::specs::Derived::derive_cause, stored::specs::Stored::by_fit, wire::specs::Causes::cause_if, wire::specs::Causes::cause_unless))]
fn derive_cause(ex: &[u8], letter: usize, len: usize, out: usize) -> Result<(), Refusal>
    ensures { let b = ex.now in
        told result ≡ by_fit b (derive_cause (decoded b) letter len out) 1 }
{
    if !due::is_complete(ex) {
        return Err(Refusal::NotDue);
    }
    if !limits::in_range(limits::LETTER_FIRST, limits::LETTER_LAST, letter)
        || !limits::in_range(1, limits::KEY_MOST, len)
    {
        return Err(Refusal::BadInput);
    }
    if out < len {
        return Err(Refusal::OutputTooShort);
    }
    Ok(())
}

// A key: the first cause against it, or the output begins with it.
pub fn derive(ex: &[u8], letter: usize, len: usize, out: &mut [u8]) -> u8
    ensures { let b = ex.now in
        let o = out.old in
        let cause = by_fit b (derive_cause (decoded b) letter len (length o)) 1 in
        (result ≡ cause) × (out.new ≡ output_after cause o (key_in (decoded b) letter len)) }
{
    if let Err(e) = derive_cause(ex, letter, len, out.len()) {
        return e.number();
    }
    let kind = methods::digest_len(stored::byte_in(ex, stored::METHOD_AT));
    let k = stored::k_in(ex);
    let size = 4 + wire::u32_at(k, 0) as usize;
    let h = &stored::h_in(ex)[0..kind];
    let id_len = stored::id_len_in(ex);
    let id = &stored::id_in(ex)[0..id_len];
    write_key(kind, &k[0..size], h, letter as u8, id, &mut out[0..len]);
    0
}
