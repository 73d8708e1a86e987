// V, judged: its length, and that no byte of it is 0, 10 or 13.
#![tactic(auto)]

ghost use Rattle.std.specs.Prelude.{◌≡◌, [], ◌∷◌, ◌+◌, ◌≤◌, length, take, drop};
ghost use Rattle.exchange.specs.Causes.{plain, version_ok};

// Whether a byte may stand in a version: it is none of 0, 10 and 13.
fn plain_byte(b: u8) -> bool
    ensures { result ≡ plain (b ∷ []) }
{
    (b != 0) & (b != 10) & (b != 13)
}

// Whether the sixteen bytes of v from i on all may. All are held to one value after another, so that the compiler holds them to it at once.
fn plain_sixteen(v: &[u8], i: usize) -> bool
    requires { i + 16 ≤ length v.now }
    ensures { result ≡ plain (take 16 (drop i v.now)) }
{
    let b0 = v[i];
    let b1 = v[i + 1];
    let b2 = v[i + 2];
    let b3 = v[i + 3];
    let b4 = v[i + 4];
    let b5 = v[i + 5];
    let b6 = v[i + 6];
    let b7 = v[i + 7];
    let b8 = v[i + 8];
    let b9 = v[i + 9];
    let b10 = v[i + 10];
    let b11 = v[i + 11];
    let b12 = v[i + 12];
    let b13 = v[i + 13];
    let b14 = v[i + 14];
    let b15 = v[i + 15];
    let no_zero = (b0 != 0)
        & (b1 != 0)
        & (b2 != 0)
        & (b3 != 0)
        & (b4 != 0)
        & (b5 != 0)
        & (b6 != 0)
        & (b7 != 0)
        & (b8 != 0)
        & (b9 != 0)
        & (b10 != 0)
        & (b11 != 0)
        & (b12 != 0)
        & (b13 != 0)
        & (b14 != 0)
        & (b15 != 0);
    let no_lf = (b0 != 10)
        & (b1 != 10)
        & (b2 != 10)
        & (b3 != 10)
        & (b4 != 10)
        & (b5 != 10)
        & (b6 != 10)
        & (b7 != 10)
        & (b8 != 10)
        & (b9 != 10)
        & (b10 != 10)
        & (b11 != 10)
        & (b12 != 10)
        & (b13 != 10)
        & (b14 != 10)
        & (b15 != 10);
    let no_cr = (b0 != 13)
        & (b1 != 13)
        & (b2 != 13)
        & (b3 != 13)
        & (b4 != 13)
        & (b5 != 13)
        & (b6 != 13)
        & (b7 != 13)
        & (b8 != 13)
        & (b9 != 13)
        & (b10 != 13)
        & (b11 != 13)
        & (b12 != 13)
        & (b13 != 13)
        & (b14 != 13)
        & (b15 != 13);
    no_zero & no_lf & no_cr
}

// Whether v is a version: not empty, not too long, and without 0, 10 and 13. Looked through sixteen bytes at a time, then the rest.
pub fn version_ok(v: &[u8]) -> bool
    ensures { result ≡ version_ok v.now }
{
    if v.len() < 1 {
        return false;
    }
    if limits::VERSION_MOST < v.len() {
        return false;
    }
    let mut i = 0;
    while 16 <= v.len() - i {
        if !plain_sixteen(v, i) {
            return false;
        }
        i += 16;
    }
    while i < v.len() {
        if !plain_byte(v[i]) {
            return false;
        }
        i += 1;
    }
    true
}
