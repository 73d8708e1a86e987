// An exchange by value from the bytes that are lent for one, and into them. No step needs it: steps read and change the bytes.
#![tactic(auto)]

ghost use Rattle.std.specs.Prelude.{◌≡◌, ◌++◌};
ghost use Rattle.buffers.specs.Bytes.{laid};
ghost use Rattle.exchange.specs.Record.{no_session};
ghost use Rattle.stored.specs.Stored.{bytes16, bytes64, encoded, session_in, decoded, blank, by_size};

use exchange::{Exchange, Session, Stage};

// The session in as many bytes as an exchange has; none in others.
fn load_session(b: &[u8]) -> Session
    ensures { result ≡ by_size b.now (session_in b.now) no_session }
{
    Session {
        id: buffers::in_zeros(stored::id_in(b)),
        len: stored::id_len_in(b),
        count: stored::count_in(b),
    }
}

// The exchange in as many bytes as one has, whatever their marks; a blank one in others.
pub fn load(b: &[u8]) -> Exchange
    ensures { result ≡ by_size b.now (decoded b.now) blank }
{
    let mut e = Exchange {
        stage: Stage::Started,
        role: 0,
        method: 0,
        lens: stored::lengths_in(b),
        k: buffers::in_zeros(stored::k_in(b)),
        h: buffers::in_zeros(stored::h_in(b)),
        session: load_session(b),
    };
    if b.len() != limits::EXCHANGE_SIZE {
        return e;
    }
    e.stage = stored::stage_in(b);
    e.role = b[stored::ROLE_AT];
    e.method = b[stored::METHOD_AT];
    e
}

// Lays a session into the bytes behind H, where it fits there.
fn store_session(b: &mut [u8], s: Session)
    ensures { b.new ≡ laid (laid b.old 154 (bytes16 s.len ++ bytes64 s.count)) 164 s.id }
{
    let len = stored::length_bytes(s.len);
    let n = s.count.to_be_bytes();
    let id = s.id;
    let numbers = [
        len[0], len[1], n[0], n[1], n[2], n[3], n[4], n[5], n[6], n[7],
    ];
    buffers::put_bytes(b, stored::SESSION_AT, &numbers);
    buffers::put_bytes(b, stored::ID_AT, &id);
}

// Lays an exchange into lent bytes that are as many as one has; others stay.
pub fn store(b: &mut [u8], x: Exchange)
    ensures { b.new ≡ by_size b.old (encoded x) b.old }
{
    if b.len() != limits::EXCHANGE_SIZE {
        return;
    }
    let stage = x.stage;
    let l = x.lens;
    let k = x.k;
    let vc = stored::length_bytes(l.vc);
    let vs = stored::length_bytes(l.vs);
    let ic = stored::length_bytes(l.ic);
    let is = stored::length_bytes(l.is);
    let ks = stored::length_bytes(l.ks);
    let c = stored::length_bytes(l.c);
    let s = stored::length_bytes(l.s);
    let head = [
        limits::EXCHANGE_MARK,
        stored::stage_number(stage),
        stored::fail_number(stage),
        x.role,
        x.method,
        vc[0],
        vc[1],
        vs[0],
        vs[1],
        ic[0],
        ic[1],
        is[0],
        is[1],
        ks[0],
        ks[1],
        c[0],
        c[1],
        s[0],
        s[1],
    ];
    buffers::put_bytes(b, 0, &head);
    buffers::put_bytes(b, stored::K_AT, &k);
    let h = x.h;
    buffers::put_bytes(b, stored::H_AT, &h);
    let session = x.session;
    store_session(b, session);
}
