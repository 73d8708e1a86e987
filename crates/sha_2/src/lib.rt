// FIPS 180-4: SHA-256, SHA-384 and SHA-512, fed in parts, by value. A hash's kind is the bytes of its digest: 32, 48 or 64.
#![tactic(auto)]

ghost use Rattle.std.specs.Prelude.{◌≡◌, [], ◌∷◌, ◌++◌, ◌+◌, ◌-◌, ◌*◌, ◌≤◌, ◌<◌, leb, length, take, drop};
ghost use Rattle.limits.specs.Limits.{hash_most, block_most, h_size};
ghost use Rattle.buffers.specs.Bytes.{zeros, laid};
ghost use Rattle.sha_words.specs.Constants.{known, width_of};
ghost use Rattle.sha_words.specs.Message.{bytes_of, padding, padded, sized, value_after};
ghost use Rattle.sha_2.specs.Hash.{fits as fitting, Growing, Ending, initial_value, blank, grown, fed, fed_of, started, finished, digested, digest_of};

use limits::Refusal;

// A hash that is being fed: its kind, the bytes fed so far, how many of them wait for a whole block, the hash value of the others as bytes
// (SHA-256 uses the first 32), and what waits; a feed leaves zeros behind that. `state_bytes` and the C interface have the kind as a number and both
// lengths in the state, so these stay; `waiting` is what waits.
#[derive(Clone, Copy)]
pub struct Hash {
    pub kind: u8,
    pub total: usize,
    pub held: usize,
    pub value: [u8; limits::H_SIZE],
    pub tail: [u8; limits::BLOCK_MOST],
}

// ---- by kind

// A kind and a hash value go together through what follows. Both are fields of `Hash`, which `state_bytes` lays out, so a struct of the two would only
// be made for each call and taken apart again.

// The bytes of a block.
fn block_of(kind: u8) -> usize
    ensures { result ≡ (width_of kind).block }
{
    if kind == 32 { 64 } else { 128 }
}

// The hash value after the whole blocks of m.
fn blocks(kind: u8, value: [u8; limits::H_SIZE], m: &[u8]) -> [u8; limits::H_SIZE]
    ensures { result ≡ value_after (width_of kind) value m.now }
{
    if kind == 32 {
        return sha_256::blocks(value, m);
    }
    sha_512::blocks(value, m)
}

// ---- feed

// Two lists one behind the other in 128 bytes; zeros follow. A call of its own: it is needed at four places.
#[inline(never)]
fn joined(before: &[u8], part: &[u8]) -> [u8; limits::BLOCK_MOST]
    requires { length before.now + length part.now ≤ block_most }
    ensures { result ≡ sized block_most (before.now ++ part.now) }
{
    let mut t = [0u8; limits::BLOCK_MOST];
    buffers::put_both(&mut t, before, part);
    t
}

// The last n bytes of both; zeros follow.
fn tail_of(before: &[u8], part: &[u8], n: usize) -> [u8; limits::BLOCK_MOST]
    requires { (n ≤ block_most) × (n ≤ length before.now + length part.now) }
    ensures { result ≡ sized block_most (drop (length before.now + length part.now - n) (before.now ++ part.now)) }
{
    if n <= part.len() {
        let from = part.len() - n;
        return joined(&part[0..0], &part[from..]);
    }
    let more = n - part.len();
    let from = before.len() - more;
    joined(&before[from..], part)
}

// The hash value after the whole blocks of both.
fn absorb(kind: u8, value: [u8; limits::H_SIZE], before: &[u8], part: &[u8]) -> [u8; limits::H_SIZE]
    requires { length before.now < (width_of kind).block }
    ensures { result ≡ value_after (width_of kind) value (before.now ++ part.now) }
{
    let size = block_of(kind);
    let cut = size - before.len();
    if part.len() < cut {
        return value;
    }
    let first = joined(before, &part[0..cut]);
    let x = blocks(kind, value, &first[0..size]);
    blocks(kind, x, &part[cut..])
}

// ---- start

// The initial hash values (5.3.3 to 5.3.5).
const INITIAL_256: [u8; limits::H_SIZE] = [
    0x6a, 0x09, 0xe6, 0x67, 0xbb, 0x67, 0xae, 0x85, 0x3c, 0x6e, 0xf3, 0x72, 0xa5, 0x4f, 0xf5, 0x3a,
    0x51, 0x0e, 0x52, 0x7f, 0x9b, 0x05, 0x68, 0x8c, 0x1f, 0x83, 0xd9, 0xab, 0x5b, 0xe0, 0xcd, 0x19,
    0x00, 0x00, 0x00, 0x00, 0x00, 0x00, 0x00, 0x00, 0x00, 0x00, 0x00, 0x00, 0x00, 0x00, 0x00, 0x00,
    0x00, 0x00, 0x00, 0x00, 0x00, 0x00, 0x00, 0x00, 0x00, 0x00, 0x00, 0x00, 0x00, 0x00, 0x00, 0x00,
];

const INITIAL_384: [u8; limits::H_SIZE] = [
    0xcb, 0xbb, 0x9d, 0x5d, 0xc1, 0x05, 0x9e, 0xd8, 0x62, 0x9a, 0x29, 0x2a, 0x36, 0x7c, 0xd5, 0x07,
    0x91, 0x59, 0x01, 0x5a, 0x30, 0x70, 0xdd, 0x17, 0x15, 0x2f, 0xec, 0xd8, 0xf7, 0x0e, 0x59, 0x39,
    0x67, 0x33, 0x26, 0x67, 0xff, 0xc0, 0x0b, 0x31, 0x8e, 0xb4, 0x4a, 0x87, 0x68, 0x58, 0x15, 0x11,
    0xdb, 0x0c, 0x2e, 0x0d, 0x64, 0xf9, 0x8f, 0xa7, 0x47, 0xb5, 0x48, 0x1d, 0xbe, 0xfa, 0x4f, 0xa4,
];

const INITIAL_512: [u8; limits::H_SIZE] = [
    0x6a, 0x09, 0xe6, 0x67, 0xf3, 0xbc, 0xc9, 0x08, 0xbb, 0x67, 0xae, 0x85, 0x84, 0xca, 0xa7, 0x3b,
    0x3c, 0x6e, 0xf3, 0x72, 0xfe, 0x94, 0xf8, 0x2b, 0xa5, 0x4f, 0xf5, 0x3a, 0x5f, 0x1d, 0x36, 0xf1,
    0x51, 0x0e, 0x52, 0x7f, 0xad, 0xe6, 0x82, 0xd1, 0x9b, 0x05, 0x68, 0x8c, 0x2b, 0x3e, 0x6c, 0x1f,
    0x1f, 0x83, 0xd9, 0xab, 0xfb, 0x41, 0xbd, 0x6b, 0x5b, 0xe0, 0xcd, 0x19, 0x13, 0x7e, 0x21, 0x79,
];

pub fn is_known(kind: usize) -> bool
    ensures { result ≡ known kind }
{
    matches!(kind, 32 | 48 | 64)
}

// The initial hash value of a kind; zeros where there is none, as `initial_value` has it.
fn initial_of(kind: usize) -> [u8; limits::H_SIZE]
    ensures { result ≡ initial_value kind }
{
    match kind {
        32 => INITIAL_256,
        48 => INITIAL_384,
        64 => INITIAL_512,
        _ => [0u8; limits::H_SIZE],
    }
}

// ---- finish

// Lays the count of bits of total bytes into a block, from `at` on. Three bytes hold it.
fn put_count(t: &mut [u8], at: usize, total: usize)
    requires { total ≤ hash_most }
    ensures { t.new ≡ laid t.old at (bytes_of 3 (8 * total)) }
{
    let bits = 8 * total;
    buffers::put_bytes(t, at, &bits.to_be_bytes()[5..]);
}

// The hash value after the padding. The padding block is 128 zero bytes before what waits and the bit 1 are laid in; where the count does
// not fit behind them, the block is hashed and filled with zeros again.
fn last(kind: u8, value: [u8; limits::H_SIZE], before: &[u8], total: usize) -> [u8; limits::H_SIZE]
    requires { Ending kind before.now total }
    ensures { result ≡ value_after (width_of kind) value (before.now ++ padding (width_of kind) total) }
{
    let size = block_of(kind);
    let one = [128u8];
    let mut b = joined(before, &one);
    let at = size - 3;
    if before.len() < size - size / 8 {
        put_count(&mut b, at, total);
        return blocks(kind, value, &b[0..size]);
    }
    let x = blocks(kind, value, &b[0..size]);
    b = [0u8; limits::BLOCK_MOST];
    put_count(&mut b, at, total);
    blocks(kind, x, &b[0..size])
}

// The first n bytes of a hash value; zeros follow.
fn cut(value: [u8; limits::H_SIZE], n: usize) -> [u8; limits::H_SIZE]
    requires { n ≤ h_size }
    ensures { result ≡ sized h_size (take n value) }
{
    buffers::in_zeros(&value[..n])
}

// The digest of a and then b, zeros behind it; refused where the kind is unknown or they are more than 65,536 bytes.
pub fn hash_of(kind: usize, a: &[u8], b: &[u8]) -> Result<[u8; limits::H_SIZE], Refusal>
    ensures { digest_of result ≡ digested kind (a.now ++ b.now) }
{
    if !(is_known(kind) & sum_fits(a.len(), b.len())) {
        return Err(Refusal::BadInput);
    }
    let v = value_of_both(kind as u8, initial_of(kind), a, b);
    Ok(cut(v, kind))
}

// The last hash value of a and then b, padded. What stands behind the whole blocks of a is not copied.
fn value_of_both(kind: u8, value: [u8; limits::H_SIZE], a: &[u8], b: &[u8]) -> [u8; limits::H_SIZE]
    requires { length a.now + length b.now ≤ hash_most }
    ensures { result ≡ value_after (width_of kind) value (padded (width_of kind) (a.now ++ b.now)) }
{
    let size = block_of(kind);
    let x = blocks(kind, value, a);
    let from = a.len() - a.len() % size;
    let before = &a[from..];
    let y = absorb(kind, x, before, b);
    let held = (before.len() + b.len()) % size;
    let tail = tail_of(before, b, held);
    last(kind, y, &tail[0..held], a.len() + b.len())
}

// Whether two lengths together are at most what may be fed.
fn sum_fits(a: usize, b: usize) -> bool
    ensures { result ≡ leb (a + b) hash_most }
{
    a <= limits::HASH_MOST && b <= limits::HASH_MOST - a
}

// ---- a hash that is fed in parts

impl Hash {
    // A hash that was fed nothing.
    fn made(kind: u8, value: [u8; limits::H_SIZE]) -> Hash
        ensures { result ≡ record { kind = kind; total = 0; held = 0; value = value; tail = zeros block_most } }
    {
        Hash {
            kind,
            total: 0,
            held: 0,
            value,
            tail: [0u8; limits::BLOCK_MOST],
        }
    }

    // A state that fits nothing.
    pub fn blank() -> Hash
        ensures { result ≡ blank }
    {
        Hash::made(0, [0u8; limits::H_SIZE])
    }

    // A hash that was fed nothing; refused where the kind is unknown.
    pub fn start(kind: usize) -> Result<Hash, Refusal>
        ensures { fed_of blank result ≡ started kind }
    {
        if !is_known(kind) {
            return Err(Refusal::BadInput);
        }
        Ok(Hash::made(kind as u8, initial_of(kind)))
    }

    // Whether its kind is known and its lengths go together.
    fn fits(&self) -> bool
        ensures { result ≡ fitting self.now }
    {
        let size = block_of(self.kind);
        is_known(self.kind as usize)
            & (self.total <= limits::HASH_MOST)
            & (self.held == self.total % size)
    }

    // The bytes that wait for a whole block.
    fn waiting(&self) -> &[u8]
        requires { self.now.held ≤ block_most }
        ensures { result.now ≡ take self.now.held self.now.tail }
    {
        &self.tail[..self.held]
    }

    // The state with a part taken in. What waits is handed over apart.
    fn grow(&self, before: &[u8], part: &[u8]) -> Hash
        requires { Growing self.now before.now part.now }
        ensures { result ≡ grown self.now part.now }
    {
        let held = (before.len() + part.len()) % block_of(self.kind);
        Hash {
            kind: self.kind,
            total: self.total + part.len(),
            held,
            value: absorb(self.kind, self.value, before, part),
            tail: tail_of(before, part, held),
        }
    }

    // Feeds a part: refused where the state does not fit, or would be fed more than 65,536 bytes in all.
    pub fn feed(&self, part: &[u8]) -> Result<Hash, Refusal>
        ensures { fed_of self.now result ≡ fed self.now part.now }
    {
        if !self.fits() {
            return Err(Refusal::BadInput);
        }
        let total = self.total;
        if limits::HASH_MOST - total < part.len() {
            return Err(Refusal::BadInput);
        }
        if part.is_empty() {
            return Ok(*self);
        }
        Ok(self.grow(self.waiting(), part))
    }

    // The digest, zeros behind it; refused where the state does not fit. The state may be fed on.
    pub fn finish(&self) -> Result<[u8; limits::H_SIZE], Refusal>
        ensures { digest_of result ≡ finished self.now }
    {
        if !self.fits() {
            return Err(Refusal::BadInput);
        }
        let v = last(self.kind, self.value, self.waiting(), self.total);
        Ok(cut(v, self.kind as usize))
    }
}
