// A hash in bytes that a host lends: started, fed and finished. Bytes of another size than a hash's are answered 4 and stay. The numbers are those
// that the C interface needs.
#![tactic(auto)]

ghost use Rattle.std.specs.Prelude.{◌≡◌, ◌+◌, ◌≤◌, length};
ghost use Rattle.limits.specs.Limits.{hash_size};
ghost use Rattle.sha_words.specs.Blocks.{word_at};
ghost use Rattle.lent_hash.specs.LentHash.{state_bytes, state_in, hash_left, hash_start_left, hash_feed_left, hash_finish_left};

use limits::Refusal;
use sha_2::Hash;

// Where a hash's parts stand; its kind stands first.
const TOTAL_AT: usize = 1;

const HELD_AT: usize = 9;

const VALUE_AT: usize = 17;

const TAIL_AT: usize = 81;

// The number in the eight bytes from `at` on.
fn number_in(h: &[u8], at: usize) -> usize
    requires { at + 8 ≤ length h.now }
    ensures { result ≡ word_at h.now at 8 }
{
    let bytes: [u8; 8] = *h[at..at + 8].as_array().unwrap();
    let [b0, b1, b2, b3, b4, b5, b6, b7] = bytes;
    numbers::join_64(b0, b1, b2, b3, b4, b5, b6, b7) as usize
}

fn load(h: &[u8]) -> Hash
    requires { length h.now ≡ hash_size }
    ensures { result ≡ state_in h.now }
{
    Hash {
        kind: h[0],
        total: number_in(h, TOTAL_AT),
        held: number_in(h, HELD_AT),
        value: *h[VALUE_AT..TAIL_AT].as_array().unwrap(),
        tail: *h[TAIL_AT..].as_array().unwrap(),
    }
}

fn store(h: &mut [u8], s: &Hash)
    requires { length h.old ≡ hash_size }
    ensures { h.new ≡ state_bytes s.now }
{
    buffers::put_array(h, 0, [s.kind]);
    buffers::put_array(h, TOTAL_AT, numbers::bytes_64(s.total as u64));
    buffers::put_array(h, HELD_AT, numbers::bytes_64(s.held as u64));
    buffers::put_array(h, VALUE_AT, s.value);
    buffers::put_array(h, TAIL_AT, s.tail);
}

// Starts a hash: of an unknown kind 4, and a state that fits nothing.
pub fn start(h: &mut [u8], kind: usize) -> u8
    ensures { hash_left result h.new ≡ hash_start_left h.old kind }
{
    if h.len() != limits::HASH_SIZE {
        return Refusal::BadInput.number();
    }
    match Hash::start(kind) {
        Ok(s) => {
            store(h, &s);
            0
        }
        Err(e) => {
            store(h, &Hash::blank());
            e.number()
        }
    }
}

// Feeds a part: 4, and every byte as it was, where the state does not fit or would be fed more than 65,536 bytes in all.
pub fn feed(h: &mut [u8], part: &[u8]) -> u8
    ensures { hash_left result h.new ≡ hash_feed_left h.old part.now }
{
    if h.len() != limits::HASH_SIZE {
        return Refusal::BadInput.number();
    }
    let s = match load(h).feed(part) {
        Ok(s) => s,
        Err(e) => return e.number(),
    };
    store(h, &s);
    0
}

// Tells the digest, zeros behind it: 4 and zeros where the state does not fit.
pub fn finish(h: &[u8], digest: &mut [u8; limits::H_SIZE]) -> u8
    ensures { hash_left result digest.new ≡ hash_finish_left h.now }
{
    *digest = [0u8; limits::H_SIZE];
    if h.len() != limits::HASH_SIZE {
        return Refusal::BadInput.number();
    }
    match load(h).finish() {
        Ok(bytes) => {
            *digest = bytes;
            0
        }
        Err(e) => e.number(),
    }
}
