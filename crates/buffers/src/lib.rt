// Buffers of bytes: compared, and laid into one another.
#![tactic(auto)]

ghost use Rattle.std.specs.Prelude.{◌≡◌, ◌+◌, ◌≤◌, cond, eqb, length, set};
ghost use Rattle.buffers.specs.Bytes.{zeros, same, laid, eight};

// Whether two byte strings are the same. Byte by byte: the library's `==` looks at groups of bytes, in ten times the code, and takes twice as long for a
// short name.
pub fn equal(a: &[u8], b: &[u8]) -> bool
    ensures { result ≡ same a.now b.now }
{
    a.len() == b.len() && a.iter().zip(b).all(|(x, y)| *x == *y)
}

// Lays an array over as many bytes; else they stay. Written out where it is called, where their number is known, and all of it is a few words.
#[inline(always)]
fn set_array<const N: usize>(part: &mut [u8], bytes: [u8; N])
    ensures { part.new ≡ cond (eqb (length part.old) N) bytes.entry part.old }
{
    if let Some(all) = part.as_mut_array() {
        *all = bytes;
    }
}

// Lays an array into out from `at` on, where it fits there; else out stays. Written out where it is called, as above.
#[inline(always)]
pub fn put_array<const N: usize>(out: &mut [u8], at: usize, bytes: [u8; N])
    ensures { out.new ≡ laid out.old at bytes.entry }
{
    if at <= out.len() && N <= out.len() - at {
        set_array(&mut out[at..at + N], bytes);
    }
}

// Writes eight bytes into out, from i behind `at` on.
fn put_eight(
    out: &mut [u8],
    at: usize,
    i: usize,
    b0: u8,
    b1: u8,
    b2: u8,
    b3: u8,
    b4: u8,
    b5: u8,
    b6: u8,
    b7: u8,
)
    requires { at + (i + 8) ≤ length out.old }
    ensures { out.new ≡ set (set (set (set (set (set (set (set out.old (at + i) b0) (at + (i + 1)) b1) (at + (i + 2)) b2) (at + (i + 3)) b3) (at + (i + 4)) b4) (at + (i + 5)) b5) (at + (i + 6)) b6) (at + (i + 7)) b7 }
{
    out[at + i] = b0;
    out[at + (i + 1)] = b1;
    out[at + (i + 2)] = b2;
    out[at + (i + 3)] = b3;
    out[at + (i + 4)] = b4;
    out[at + (i + 5)] = b5;
    out[at + (i + 6)] = b6;
    out[at + (i + 7)] = b7;
}

// Lays the sixteen bytes of src from i on into out, as far behind `at`. All are read before any is written, so that the compiler moves
// them as one word.
fn put_sixteen(out: &mut [u8], at: usize, src: &[u8], i: usize)
    requires { (at + (i + 16) ≤ length out.old) × (i + 16 ≤ length src.now) }
    ensures { out.new ≡ eight at src.now (i + 8) (eight at src.now i out.old) }
{
    let b0 = src[i];
    let b1 = src[i + 1];
    let b2 = src[i + 2];
    let b3 = src[i + 3];
    let b4 = src[i + 4];
    let b5 = src[i + 5];
    let b6 = src[i + 6];
    let b7 = src[i + 7];
    let j = i + 8;
    let c0 = src[j];
    let c1 = src[j + 1];
    let c2 = src[j + 2];
    let c3 = src[j + 3];
    let c4 = src[j + 4];
    let c5 = src[j + 5];
    let c6 = src[j + 6];
    let c7 = src[j + 7];
    put_eight(out, at, i, b0, b1, b2, b3, b4, b5, b6, b7);
    put_eight(out, at, j, c0, c1, c2, c3, c4, c5, c6, c7);
}

// Lays src into out from `at` on, where it fits there; else out stays.
pub fn put_bytes(out: &mut [u8], at: usize, src: &[u8])
    ensures { out.new ≡ laid out.old at src.now }
{
    if out.len() < at {
        return;
    }
    if out.len() - at < src.len() {
        return;
    }
    let mut i = 0;
    while 16 <= src.len() - i {
        put_sixteen(out, at, src, i);
        i += 16;
    }
    while i < src.len() {
        out[at + i] = src[i];
        i += 1;
    }
}

// Lays a and then b at the beginning of out, each where it fits.
pub fn put_both(out: &mut [u8], a: &[u8], b: &[u8])
    ensures { out.new ≡ laid (laid out.old 0 a.now) (length a.now) b.now }
{
    put_bytes(out, 0, a);
    put_bytes(out, a.len(), b);
}

// As many bytes as are asked for: those of src, where they fit, and zeros behind them.
pub fn in_zeros<const N: usize>(src: &[u8]) -> [u8; N]
    ensures { result ≡ laid (zeros N) 0 src.now }
{
    let mut bytes = [0u8; N];
    put_bytes(&mut bytes, 0, src);
    bytes
}
