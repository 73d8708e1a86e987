// NIST's messages for SHA-256, SHA-384 and SHA-512, each hashed whole, and in parts of 1, 2, 3, .. bytes. Standard input has for each message
// its kind in a byte, its length in eight, and its bytes; a line of standard output has both digests. What it prints is held to the file
// `stdout`, the digests that NIST published (tests/expect_sha2.py).
#![tactic(auto)]

use console::Hex;
use sha_2::Hash;
use std::io;

// The first n bytes of a digest, and what ends them.
fn put_digest(rt: &impl Print, d: [u8; limits::H_SIZE], n: u8, end: char) -> io::Result<()> {
    print!(rt; "{}{end}", Hex(d.get(..n as usize).unwrap_or(&[])))
}

// What is refused leaves a hash as it was; so a kind that there is not is answered zeros.
fn fed(h: Hash, part: &[u8]) -> Hash {
    h.feed(part).unwrap_or(h)
}

fn put_finished(rt: &impl Print, h: Hash, n: u8, end: char) -> io::Result<()> {
    put_digest(rt, h.finish().unwrap_or([0u8; limits::H_SIZE]), n, end)
}

fn whole(rt: &impl Print, start: Hash, kind: u8, m: &[u8]) -> io::Result<()> {
    put_finished(rt, fed(start, m), kind, ' ')
}

fn in_parts(rt: &impl Print, start: Hash, kind: u8, m: &[u8]) -> io::Result<()> {
    let mut h = start;
    let mut rest = m;
    let mut k = 1;
    while !rest.is_empty() {
        let (part, more) = rest.split_at(rest.len().min(k));
        h = fed(h, part);
        rest = more;
        k += 1;
    }
    put_finished(rt, h, kind, '\n')
}

// A message: whether there was one.
fn message(rt: &(impl Input + Print), space: &mut [u8]) -> io::Result<bool> {
    let mut head = [0u8; 9];
    if console::read_full(rt, &mut head)? < head.len() {
        return Ok(false);
    }
    let kind = head[0];
    let Some(len) = head.last_chunk() else {
        return Ok(false);
    };
    let len = usize::from_be_bytes(*len);
    let Some(m) = space.get_mut(..len) else {
        return Ok(false);
    };
    if console::read_full(rt, m)? < len {
        return Ok(false);
    }
    let start = Hash::start(kind as usize).unwrap_or(Hash::blank());
    whole(rt, start, kind, m)?;
    in_parts(rt, start, kind, m)?;
    Ok(true)
}

fn main(rt: HostRuntime) -> io::Result<()> {
    let mut space = [0u8; 65536];
    for _ in 0..1000 {
        if !message(&rt, &mut space)? {
            return Ok(());
        }
    }
    Ok(())
}
