// What a step changes in an exchange's bytes, where they are as many as an exchange has; others stay.
#![tactic(auto)]

ghost use Rattle.std.specs.Prelude.{◌≡◌, ◌+◌, ◌≤◌, length, set};
ghost use Rattle.std.specs.Fn.{FnOnceReturnsAtMut};
ghost use Rattle.limits.specs.Limits.{exchange_size};
ghost use Rattle.buffers.specs.Bytes.{laid, over};
ghost use Rattle.stored.specs.Stored.{by_size, bytes64};
ghost use Rattle.changes.specs.Changes.{put16, put_count, put_id, put_marks, put_head};

// A length, in two bytes.
#[tactic(auto, using(crate::proofs::ChangeLaws::two_put))]
fn put_u16(b: &mut [u8], at: usize, n: usize)
    requires { at + 2 ≤ length b.old }
    ensures { b.new ≡ put16 b.old at n }
{
    let [high, low] = stored::length_bytes(n);
    b[at] = high;
    b[at + 1] = low;
}

// A count, in eight bytes.
fn put_u64(b: &mut [u8], at: usize, n: u64)
    requires { at + 8 ≤ length b.old }
    ensures { b.new ≡ over b.old at (bytes64 n) }
{
    buffers::put_array(b, at, n.to_be_bytes());
}

// Changes the bytes of an exchange; bytes of another size stay.
fn change<F: FnOnce(&mut [u8; limits::EXCHANGE_SIZE])>(b: &mut [u8], f: F)
    requires { F.IsAlwaysCallable f }
    ensures taken { length b.old ≡ exchange_size → FnOnceReturnsAtMut F.FnOnce f b.old tt b.new }
    ensures left { (length b.old ≡ exchange_size → ⊥) → b.new ≡ b.old }
{
    if let Some(b) = b.as_mut_array() {
        f(b);
    }
}

// The stage alone, here and below as the byte that it is: the contracts hold of every number, and a Stage would ask more of callers.
pub fn put_stage(b: &mut [u8], stage: u8)
    ensures { b.new ≡ by_size b.old (set b.old 1 stage) b.old }
{
    change(b, |b| b[stored::STAGE_AT] = stage)
}

// The stage, and C's length.
pub fn put_c(b: &mut [u8], stage: u8, c: usize)
    ensures { b.new ≡ by_size b.old (put16 (set b.old 1 stage) 15 c) b.old }
{
    change(b, |b| {
        b[stored::STAGE_AT] = stage;
        put_u16(b, stored::C_AT, c);
    })
}

// The stage, and the lengths of K_S and S.
pub fn put_s(b: &mut [u8], stage: u8, ks: usize, s: usize)
    ensures { b.new ≡ by_size b.old (put16 (put16 (set b.old 1 stage) 13 ks) 17 s) b.old }
{
    change(b, |b| {
        b[stored::STAGE_AT] = stage;
        put_u16(b, stored::KS_AT, ks);
        put_u16(b, stored::S_AT, s);
    })
}

// The stage, and K's record.
pub fn put_k(b: &mut [u8], stage: u8, k: &[u8])
    ensures { b.new ≡ by_size b.old (laid (set b.old 1 stage) 19 k.now) b.old }
{
    change(b, |b| {
        b[stored::STAGE_AT] = stage;
        buffers::put_bytes(b, stored::K_AT, k);
    })
}

// H alone.
pub fn put_h(b: &mut [u8], h: &[u8])
    ensures { b.new ≡ by_size b.old (laid b.old 90 h.now) b.old }
{
    change(b, |b| buffers::put_bytes(b, stored::H_AT, h))
}

// How many exchanges were completed.
pub fn put_count(b: &mut [u8], count: u64)
    ensures { b.new ≡ by_size b.old (put_count b.old count) b.old }
{
    change(b, |b| put_u64(b, stored::COUNT_AT, count))
}

// The session identifier, which is H as it stands, and its length.
pub fn put_id(b: &mut [u8], len: usize)
    ensures { b.new ≡ by_size b.old (put_id b.old len) b.old }
{
    change(b, |b| {
        transcript::move_up(
            b,
            stored::H_AT,
            limits::H_SIZE,
            stored::ID_AT - stored::H_AT,
        );
        put_u16(b, stored::SESSION_AT, len);
    })
}

// What stands ahead of the length of K_S: stage, fail number, role and method, and the lengths of both V and both I.
#[derive(Clone, Copy, Default)]
pub struct Head {
    pub stage: u8,
    pub fail: u8,
    pub role: u8,
    pub method: u8,
    pub vc: usize,
    pub vs: usize,
    pub ic: usize,
    pub is: usize,
}

// The five single bytes.
fn put_marks(b: &mut [u8], h: Head)
    requires { 5 ≤ length b.old }
    ensures { b.new ≡ put_marks b.old h.stage h.fail h.role h.method }
{
    b[stored::MARK_AT] = limits::EXCHANGE_MARK;
    b[stored::STAGE_AT] = h.stage;
    b[stored::FAIL_AT] = h.fail;
    b[stored::ROLE_AT] = h.role;
    b[stored::METHOD_AT] = h.method;
}

// The same in any bytes that are long enough.
fn lay_head(b: &mut [u8], h: Head)
    requires { 13 ≤ length b.old }
    ensures { b.new ≡ put_head b.old h.stage h.fail h.role h.method h.vc h.vs h.ic h.is }
{
    put_marks(b, h);
    put_u16(b, 5, h.vc);
    put_u16(b, 7, h.vs);
    put_u16(b, 9, h.ic);
    put_u16(b, 11, h.is);
}

// All that stands ahead of the length of K_S.
pub fn put_head(b: &mut [u8], h: Head)
    ensures { b.new ≡ by_size b.old (put_head b.old h.stage h.fail h.role h.method h.vc h.vs h.ic h.is) b.old }
{
    change(b, |b| lay_head(b, h))
}
