// The shared secret K as it stands in the hash input: X as an mpint (RFC 8731, section 3.1; RFC 5656, section 4), or a hybrid's
// digest as a string, kept in a record of fixed size.
#![tactic(auto)]

ghost use Rattle.std.specs.Prelude.{◌≡◌, ◌∷◌, ◌++◌, ◌≤◌, ◌<◌, length, take, drop, MatchOption};
ghost use Rattle.std.specs.Int.{w64, from_le_bytes};
ghost use Rattle.buffers.specs.Bytes.{zeros};
ghost use Rattle.wire.specs.Strings.{string};
ghost use Rattle.mpint.specs.Mpint.{mpint};
ghost use Rattle.secret.specs.Secret.{leading_zeros, k_bytes, told_by, kept};

use methods::KForm;

// K's length and the K record, zeros after K's end. The length stands beside the bytes: a rule of the project (fixed memory) needs it.
#[derive(Clone, Copy)]
pub struct Secret {
    pub len: usize,
    pub bytes: [u8; limits::K_SIZE],
}

// The first eight bytes as a number, the first the lowest, and what is behind them. It is one read where the machine has one, for size as for speed.
fn first_word(x: &[u8]) -> Option<(u64, &[u8])>
    ensures { MatchOption result (length x.now < 8) (λ p. (8 ≤ length x.now) × (p.0 ≡ from_le_bytes w64 (take 8 x.now)) × (p.1.now ≡ drop 8 x.now)) }
{
    let (word, rest) = x.split_first_chunk::<8>()?;
    Some((u64::from_le_bytes(*word), rest))
}

// How many zero bytes stand in front. Two looks find it for nearly every X; then it looks at eight bytes at a time, as a number: of one
// that is not zero, every eight zero bits below the lowest that is set are a zero byte. The bytes behind the last whole eight come singly.
// With the library's `as_chunks` it takes up to a tenth longer, and 148 bytes more for speed at each of two places.
pub fn leading_zeros(x: &[u8]) -> usize
    ensures { result ≡ leading_zeros x.now }
{
    if 8 <= x.len() {
        if x[0] != 0 {
            return 0;
        }
        if x[1] != 0 {
            return 1;
        }
    }
    let mut rest = x;
    while let Some((word, behind)) = first_word(rest) {
        if word != 0 {
            return x.len() - rest.len() + (word.trailing_zeros() / 8) as usize;
        }
        rest = behind;
    }
    x.len() - rest.len() + rest.iter().position(|b| *b != 0).unwrap_or(rest.len())
}

// K with this body: `pad` zero bytes, which stand in the record already, and then the digits. None where K is longer than the record.
fn keep(pad: usize, digits: &[u8]) -> Option<Secret>
    requires { pad ≤ 1 }
    ensures { told_by result ≡ kept (string (zeros pad ++ digits.now)) }
{
    let n = pad + digits.len();
    if limits::K_SIZE - 4 < n {
        return None;
    }
    let mut bytes = [0u8; limits::K_SIZE];
    writers::put_u32(&mut bytes, 0, n);
    buffers::put_bytes(&mut bytes, 4 + pad, digits);
    Some(Secret { len: 4 + n, bytes })
}

// K from X, read as an unsigned number, the highest byte first. Zeros in front are dropped, and one is put back where the
// top bit would make the number negative.
pub fn k_from_x(x: &[u8]) -> Option<Secret>
    ensures { told_by result ≡ kept (mpint (0 ∷ x.now)) }
{
    let k = leading_zeros(x);
    if k < x.len() && 128 <= x[k] {
        return keep(1, &x[k..]);
    }
    keep(0, &x[k..])
}

// K from a hybrid's digest.
pub fn k_from_digest(digest: &[u8]) -> Option<Secret>
    ensures { told_by result ≡ kept (string digest.now) }
{
    keep(0, digest)
}

// K in the form that its method gives it.
pub fn k_of(form: KForm, x: &[u8], digest: &[u8]) -> Option<Secret>
    ensures { told_by result ≡ kept (k_bytes form x.now digest.now) }
{
    match form {
        KForm::Mpint => k_from_x(x),
        KForm::Digest => k_from_digest(digest),
    }
}
