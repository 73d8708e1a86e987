// FIPS 180-4, sections 4.1 and 6.2.2: the block function, once over the words that it is on. A hash value goes in and comes back as bytes.
#![tactic(auto)]

ghost use Rattle.std.specs.Prelude.{◌≡◌, ◌+◌, ◌-◌, ◌*◌, ◌≤◌, ◌<◌, ℕ, get_or, length, map};
ghost use Rattle.buffers.specs.Bytes.{laid};
ghost use Rattle.sha_words.specs.Words.{Width, add, Ch, Maj, Σ0, Σ1, σ0, σ1};
ghost use Rattle.sha_words.specs.Blocks.{word_at, mixed, round as one_round, rounds_of, schedule as words_of, sums as sums_of, next as next_of, after};
ghost use Rattle.sha_words.specs.Message.{bytes_of, words_at, value_of as value_in, value_after};
ghost use Rattle.sha_blocks.specs.Variables.{working, listed};

// The words of one width, with what FIPS 180-4 has for it. The sum, the choice and the majority, a line each, are alike for both widths and stay in each:
// written once here they would ask for four operators, each with a law of its own.
pub trait Word: Copy {
    const BYTES: usize;

    const ROUNDS: usize;

    ghost BYTES: { ℕ };

    ghost ROUNDS: { ℕ };

    ghost width: { Width };

    // The number that a word is.
    ghost number: { Self → ℕ };

    fn wrapping_add(self, other: Self) -> Self
        ensures { number result ≡ add width.w (number self) (number other) };

    fn choose(self, yes: Self, no: Self) -> Self
        ensures { number result ≡ Ch width.w (number self) (number yes) (number no) };

    fn majority(self, y: Self, z: Self) -> Self
        ensures { number result ≡ Maj (number self) (number y) (number z) };

    fn big_sigma0(self) -> Self
        ensures { number result ≡ Σ0 width (number self) };

    fn big_sigma1(self) -> Self
        ensures { number result ≡ Σ1 width (number self) };

    fn small_sigma0(self) -> Self
        ensures { number result ≡ σ0 width (number self) };

    fn small_sigma1(self) -> Self
        ensures { number result ≡ σ1 width (number self) };

    // K_t.
    fn constant(t: usize) -> Self
        ensures { number result ≡ get_or width.K t 0 };

    // The word in the bytes from `at` on.
    fn read(b: &[u8], at: usize) -> Self
        requires { at + BYTES ≤ length b.now }
        ensures { number result ≡ word_at b.now at width.bytes };

    // Lays its bytes into others, from `at` on.
    fn put(self, out: &mut [u8], at: usize)
        ensures { out.new ≡ laid out.old at (bytes_of width.bytes (number self)) };

    // W_t, of the words before it.
    fn mixed(m: &[Self], t: usize) -> Self
        requires { (16 ≤ t) × (t < length m.now) }
        ensures { let ws = map number m.now in
            number result ≡ mixed width (get_or ws (t - 2) 0) (get_or ws (t - 7) 0) (get_or ws (t - 15) 0) (get_or ws (t - 16) 0) }
    {
        m[t - 2]
            .small_sigma1()
            .wrapping_add(m[t - 7])
            .wrapping_add(m[t - 15].small_sigma0())
            .wrapping_add(m[t - 16])
    }

    ghost bytes: { width.bytes ≡ BYTES };

    ghost bytes_most: { BYTES ≤ 8 };

    ghost block: { width.block ≡ 16 * BYTES };

    ghost block_least: { 1 ≤ BYTES };

    ghost rounds: { width.rounds ≡ ROUNDS };

    ghost rounds_least: { 16 ≤ ROUNDS };
}

// The working variables, or a hash value.
#[derive(Clone, Copy)]
pub struct Variables<W> {
    pub a: W,
    pub b: W,
    pub c: W,
    pub d: W,
    pub e: W,
    pub f: W,
    pub g: W,
    pub h: W,
}

// ---- words and bytes

// A hash value's eight words.
fn words_in<W: Word>(v: &[u8]) -> Variables<W>
    requires { 8 * W.BYTES ≤ length v.now }
    ensures { listed W.number result ≡ words_at v.now 0 W.width.bytes 8 }
{
    Variables {
        a: W::read(v, 0),
        b: W::read(v, W::BYTES),
        c: W::read(v, 2 * W::BYTES),
        d: W::read(v, 3 * W::BYTES),
        e: W::read(v, 4 * W::BYTES),
        f: W::read(v, 5 * W::BYTES),
        g: W::read(v, 6 * W::BYTES),
        h: W::read(v, 7 * W::BYTES),
    }
}

// Its bytes.
fn value_of<W: Word>(h: Variables<W>) -> [u8; limits::H_SIZE]
    ensures { result ≡ value_in W.width (listed W.number h) }
{
    let n = W::BYTES;
    let mut out = [0u8; limits::H_SIZE];
    h.a.put(&mut out, 0);
    h.b.put(&mut out, n);
    h.c.put(&mut out, 2 * n);
    h.d.put(&mut out, 3 * n);
    h.e.put(&mut out, 4 * n);
    h.f.put(&mut out, 5 * n);
    h.g.put(&mut out, 6 * n);
    h.h.put(&mut out, 7 * n);
    out
}

// ---- a block

// The message schedule, into words that are lent: an array that is handed back would stand on the stack twice.
fn schedule<W: Word>(m: &mut [W], b: &[u8])
    requires { (length m.old ≡ W.ROUNDS) × (16 * W.BYTES ≤ length b.now) }
    ensures { map W.number m.new ≡ words_of W.width b.now W.ROUNDS }
{
    for i in 0..16 {
        m[i] = W::read(b, W::BYTES * i);
    }
    for t in 16..W::ROUNDS {
        m[t] = W::mixed(m, t);
    }
}

fn round<W: Word>(v: Variables<W>, k: W, w: W) -> Variables<W>
    ensures { working W.number result ≡ one_round W.width (W.number k) (W.number w) (working W.number v) }
{
    let t1 = v
        .h
        .wrapping_add(v.e.big_sigma1())
        .wrapping_add(v.e.choose(v.f, v.g))
        .wrapping_add(k)
        .wrapping_add(w);
    let t2 = v.a.big_sigma0().wrapping_add(v.a.majority(v.b, v.c));
    Variables {
        a: t1.wrapping_add(t2),
        b: v.a,
        c: v.b,
        d: v.c,
        e: v.d.wrapping_add(t1),
        f: v.e,
        g: v.f,
        h: v.g,
    }
}

fn rounds<W: Word>(v: Variables<W>, words: &[W]) -> Variables<W>
    requires { length words.now ≡ W.ROUNDS }
    ensures { working W.number result ≡ rounds_of W.width (map W.number words.now) (working W.number v) W.ROUNDS }
{
    let mut x = v;
    for t in 0..W::ROUNDS {
        x = round(x, W::constant(t), words[t]);
    }
    x
}

fn sums<W: Word>(h: Variables<W>, v: Variables<W>) -> Variables<W>
    ensures { listed W.number result ≡ sums_of W.width.w (listed W.number h) (working W.number v) }
{
    Variables {
        a: v.a.wrapping_add(h.a),
        b: v.b.wrapping_add(h.b),
        c: v.c.wrapping_add(h.c),
        d: v.d.wrapping_add(h.d),
        e: v.e.wrapping_add(h.e),
        f: v.f.wrapping_add(h.f),
        g: v.g.wrapping_add(h.g),
        h: v.h.wrapping_add(h.h),
    }
}

// The hash value after a block.
fn next<W: Word>(h: Variables<W>, b: &[u8], words: &mut [W]) -> Variables<W>
    requires { (length words.old ≡ W.ROUNDS) × (16 * W.BYTES ≤ length b.now) }
    ensures { listed W.number result ≡ next_of W.width (listed W.number h) b.now }
{
    schedule(words, b);
    let v = rounds(h, words);
    sums(h, v)
}

// ---- a message

// The hash value after the whole blocks of m.
fn chain<W: Word>(h: Variables<W>, m: &[u8], words: &mut [W]) -> Variables<W>
    requires { length words.old ≡ W.ROUNDS }
    ensures { listed W.number result ≡ after W.width (listed W.number h) m.now }
{
    let mut x = h;
    for block in m.chunks_exact(16 * W::BYTES) {
        x = next(x, block, words);
    }
    x
}

// The value after the whole blocks of m; as it was where m is less than one. The schedule's words are lent.
pub fn blocks<W: Word>(
    value: [u8; limits::H_SIZE],
    m: &[u8],
    words: &mut [W],
) -> [u8; limits::H_SIZE]
    requires { length words.old ≡ W.ROUNDS }
    ensures { result ≡ value_after W.width value m.now }
{
    if m.len() < 16 * W::BYTES {
        return value;
    }
    value_of(chain(words_in(&value), m, words))
}
