// Opens a view on every list of the payloads of its standard input and yields the names to where they stop, each call beside the same
// call of the covered reader. What it prints is held to the file `stdout`, which tests/expect_views.py computes.
#![tactic(auto)]

use kexinit::{Fixed, Refused};
use names::Cursor;
use std::io;
use wire::Part;

fn put_same(rt: &impl Print, same: bool) -> io::Result<()> {
    let word = if same { "equal" } else { "different" };
    println!(rt; " {word}")
}

fn put_name(rt: &impl Print, payload: &[u8], name: Part) -> io::Result<()> {
    rt.write_all(wire::part_of(payload, name))?;
    print!(rt; " ")
}

// Yields names by a view and by the reader until none is found.
fn walked(rt: &impl Print, payload: &[u8], from: Cursor) -> io::Result<bool> {
    let mut at = from;
    for _ in 0..100 {
        let next = names::next_name(payload, at);
        if views::next_by_view(payload, at) != next {
            return Ok(false);
        }
        match next {
            Ok(Some(n)) => {
                put_name(rt, payload, n.name)?;
                at = n.cursor;
            }
            Ok(None) => {
                print!(rt; "0")?;
                return Ok(true);
            }
            Err(bad) => {
                print!(rt; "{}", bad.number())?;
                return Ok(true);
            }
        }
    }
    Ok(false)
}

// The number and the position of what opening gave.
fn put_head(rt: &impl Print, head: Result<Fixed, Refused>) -> io::Result<()> {
    match head {
        Ok(_) => print!(rt; "0 0 "),
        Err(r) => print!(rt; "{} {} ", r.cause.number(), r.position),
    }
}

fn list(rt: &impl Print, payload: &[u8], i: usize) -> io::Result<()> {
    print!(rt; "{i}: ")?;
    let by_view = views::open_by_view(payload, i);
    let (head, cursor) = match kexinit::open_list(payload, i) {
        Ok(o) => (Ok(o.fixed), o.cursor),
        Err(r) => (Err(r), names::NOTHING_AHEAD),
    };
    put_head(rt, by_view)?;
    let walk = walked(rt, payload, cursor)?;
    put_same(rt, walk && by_view == head)
}

fn lists(rt: &impl Print, payload: &[u8]) -> io::Result<()> {
    for i in 0..12 {
        list(rt, payload, i)?;
    }
    Ok(())
}

// The four payloads, each behind four length bytes.
fn payloads(rt: &impl Print, s: &[u8]) -> io::Result<()> {
    let mut rest = s;
    for _ in 0..4 {
        lists(rt, wire::string_body(rest))?;
        rest = wire::string_rest(rest);
    }
    Ok(())
}

fn main(rt: HostRuntime) -> io::Result<()> {
    let mut space = [0u8; 4096];
    let n = console::read_full(&rt, &mut space)?;
    payloads(&rt, &space[..n])
}
