// Drives a captured exchange, the fields of its standard input, through the steps in place on a copy: as client with a call that is not
// due, as server, and as server with a peer's fault, twice. For each call it prints the number, the count, the position and a checksum of the
// room, and for the secret H. What it prints is held to the file `stdout`, which tests/expect_in_place.py computes from the capture.
#![tactic(auto)]

use console::Hex;
use exchange::{Classical, Exchange, Kem, Step};
use std::io;
use wire::Part;

// H, with the zeros after it.
fn print_h(rt: &impl Print, h: &[u8; limits::H_SIZE]) -> io::Result<()> {
    println!(rt; "H {}", Hex(h))
}

fn mix(h: usize, b: u8) -> usize {
    (h % 65521 * 257 + (b as usize) + 1) % 65521
}

// A checksum over every byte and the length.
fn sum(s: &[u8]) -> usize {
    s.iter().fold(0, |h, b| mix(h, *b))
}

// Prints a call's answer, and hands on its exchange.
fn printed(rt: &impl Print, name: &str, st: Step, room: &[u8]) -> io::Result<Exchange> {
    println!(rt;
        "{name} {} {} {} {}",
        st.number,
        st.count,
        st.position,
        sum(room)
    )?;
    Ok(st.exchange)
}

// ---- the fields of the capture, in their order

const V_C: usize = 0;

const V_S: usize = 1;

const I_C: usize = 2;

const I_S: usize = 3;

const C: usize = 4;

const X: usize = 5;

const K_PQ: usize = 6;

const K_S: usize = 7;

const S: usize = 8;

const INIT: usize = 9;

const REPLY: usize = 10;

fn field(rec: &[u8], i: usize) -> &[u8] {
    wire::part_of(rec, wire::string_part(rec, 0, i))
}

// ---- the steps

fn start(role: u8, rec: &[u8], room: &mut [u8]) -> Exchange {
    let st = steps::start(
        role,
        9,
        field(rec, V_C),
        field(rec, V_S),
        field(rec, I_C),
        field(rec, I_S),
        room,
    );
    st.exchange
}

fn own_c(e: Exchange, rec: &[u8], room: &mut [u8]) -> Exchange {
    let mut out = [0u8; limits::INIT_LEAST];
    let st = client::own_c(e, room, field(rec, C), &mut out);
    st.exchange
}

fn init(rt: &impl Print, e: Exchange, payload: &[u8], room: &mut [u8]) -> io::Result<Exchange> {
    let st = in_place::read_init_on_copy(e, room, payload);
    printed(rt, "INIT", st, room)
}

fn reply(rt: &impl Print, e: Exchange, payload: &[u8], room: &mut [u8]) -> io::Result<Exchange> {
    let st = in_place::read_reply_on_copy(e, room, payload);
    printed(rt, "REPLY", st, room)
}

fn secret(rt: &impl Print, e: Exchange, rec: &[u8], room: &mut [u8]) -> io::Result<Exchange> {
    let x = field(rec, X);
    let st = in_place::take_secret_on_copy(
        e,
        room,
        Classical::Given(x.len()),
        x,
        Kem::Done,
        field(rec, K_PQ),
        field(rec, K_S),
        field(rec, S),
    );
    let step = st.step;
    let h = st.h;
    let f = printed(rt, "secret", step, room)?;
    print_h(rt, &h)?;
    Ok(f)
}

fn verdict(rt: &impl Print, e: Exchange, room: &mut [u8]) -> io::Result<()> {
    let mut k = [0x55u8; limits::K_SIZE];
    let st = in_place::verdict_on_copy(e, room, true, true, &mut k);
    printed(rt, "verdict", st, room)?;
    println!(rt; "K {}", sum(&k))
}

// ---- the exchange

// INIT is not the client's to read.
fn client_reads(rt: &impl Print, e: Exchange, rec: &[u8], room: &mut [u8]) -> io::Result<Exchange> {
    let f = init(rt, e, field(rec, INIT), room)?;
    reply(rt, f, field(rec, REPLY), room)
}

fn client(rt: &impl Print, rec: &[u8], room: &mut [u8]) -> io::Result<()> {
    let a = own_c(start(limits::CLIENT, rec, room), rec, room);
    let b = secret(rt, client_reads(rt, a, rec, room)?, rec, room)?;
    verdict(rt, b, room)
}

// A REPLY for an INIT is the peer's fault, and so is an INIT that is cut: both end the exchange.
fn server(rt: &impl Print, rec: &[u8], first: &[u8], room: &mut [u8]) -> io::Result<()> {
    let a = init(rt, start(limits::SERVER, rec, room), first, room)?;
    secret(rt, a, rec, room)?;
    Ok(())
}

// Its first bytes.
fn cut(payload: &[u8]) -> &[u8] {
    wire::part_of(payload, Part { start: 0, len: 40 })
}

fn main(rt: HostRuntime) -> io::Result<()> {
    let mut space = [0u8; 65536];
    let mut room = [0x55u8; limits::ROOM_LEAST];
    let n = console::read_full(&rt, &mut space)?;
    let rec = &space[..n];
    client(&rt, rec, &mut room)?;
    server(&rt, rec, field(rec, INIT), &mut room)?;
    server(&rt, rec, field(rec, REPLY), &mut room)?;
    server(&rt, rec, cut(field(rec, INIT)), &mut room)
}
