// Published keys of RFC 4253, section 7.2, by value. Standard input has for each a letter and a length in a byte each, and a complete exchange in
// its bytes; a line of standard output has the key. What it prints is held to the file `stdout`, the keys as they were published, and their
// beginnings (tests/expect_keys.py).
#![tactic(auto)]

use console::Hex;
use std::io;

// A key of a length, and its line; of a call that is refused the line has zeros.
fn show_key(rt: &impl Print, ex: &[u8], letter: u8, len: u8) -> io::Result<()> {
    let e = values::load(ex);
    let mut out = [0u8; limits::KEY_MOST];
    let _n = derive::derive(e, letter, len as usize, &mut out);
    println!(rt; "{}", Hex(out.get(..len as usize).unwrap_or(&[])))
}

// The next of them: whether there was one.
fn next(rt: &(impl Input + Print)) -> io::Result<bool> {
    let mut r = [0u8; 2 + limits::EXCHANGE_SIZE];
    if console::read_full(rt, &mut r)? < r.len() {
        return Ok(false);
    }
    show_key(rt, &r[2..], r[0], r[1])?;
    Ok(true)
}

fn main(rt: HostRuntime) -> io::Result<()> {
    for _ in 0..1000 {
        if !next(&rt)? {
            return Ok(());
        }
    }
    Ok(())
}
