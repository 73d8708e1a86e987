// What a client's names have in common with a server's (RFC 4253, section 7.1), over two cursors: the first of the client's names that
// counts and stands in the server's list.
#![tactic(auto)]

ghost use Rattle.std.specs.Prelude.{◌≡◌, Ok};
ghost use Rattle.buffers.specs.Bytes.{same};
ghost use Rattle.names.specs.Names.{up_to_bad};
ghost use Rattle.names.specs.Cursor.{ahead, yield};
ghost use Rattle.names.specs.Next.{next_told};
ghost use Rattle.common.specs.Common.{any, has, method_in, common_part, first_of, some_method, some_place};

use names::{Cursor, Named};
use wire::Part;

// The next name that a cursor yields; none at the end, and at a bad name. Never a call of its own: the search asks for one for each pair of names.
#[inline(always)]
fn next_good(list: &[u8], c: Cursor) -> Option<Named>
    ensures { next_told c (Ok result) ≡ yield c (up_to_bad (ahead list.now c)) }
{
    names::next_name(list, c).unwrap_or(None)
}

// A list and its cursor stay two parameters, here and below: each caller has the payload and the cursor apart, and searches one payload with two
// cursors, so that a struct of both would be made for each call and taken apart in it.

// The first method that a client's names have in common with a server's. The form of the search is the specification's (17.2), a rule of the
// project: two loops, and a label by which the inner one leaves both with the number.
pub fn common_method(client: &[u8], c: Cursor, server: &[u8], s: Cursor) -> Option<u8>
    ensures { result ≡ some_method (method_in any (up_to_bad (ahead client.now c)) (up_to_bad (ahead server.now s))) }
{
    let mut at = c;
    'search: loop {
        let Some(n) = next_good(client, at) else {
            break 'search None;
        };
        let name = wire::part_of(client, n.name);
        let method = method_names::number_of(name);
        if method != 0 {
            let mut to = s;
            while let Some(m) = next_good(server, to) {
                if buffers::equal(name, wire::part_of(server, m.name)) {
                    break 'search Some(method);
                }
                to = m.cursor;
            }
        }
        at = n.cursor;
    }
}

// Whether a name is among those that a cursor yields.
fn among(name: &[u8], server: &[u8], s: Cursor) -> bool
    ensures { result ≡ has name.now (up_to_bad (ahead server.now s)) }
{
    let mut to = s;
    while let Some(m) = next_good(server, to) {
        if buffers::equal(name, wire::part_of(server, m.name)) {
            return true;
        }
        to = m.cursor;
    }
    false
}

// The place of the first name that a client's names have in common with a server's.
pub fn common_name(client: &[u8], c: Cursor, server: &[u8], s: Cursor) -> Option<Part>
    ensures { result ≡ some_place (common_part c.at (up_to_bad (ahead client.now c)) (up_to_bad (ahead server.now s))) }
{
    let mut at = c;
    while let Some(n) = next_good(client, at) {
        if among(wire::part_of(client, n.name), server, s) {
            return Some(n.name);
        }
        at = n.cursor;
    }
    None
}

// The first name that a cursor yields; none counts as an empty name.
fn first(list: &[u8], c: Cursor) -> &[u8]
    ensures { result.now ≡ first_of (up_to_bad (ahead list.now c)) }
{
    let Some(n) = next_good(list, c) else {
        return &[];
    };
    wire::part_of(list, n.name)
}

// Whether the first names that two cursors yield are the same; none counts as an empty name.
pub fn same_first(client: &[u8], c: Cursor, server: &[u8], s: Cursor) -> bool
    ensures { result ≡ same (first_of (up_to_bad (ahead client.now c))) (first_of (up_to_bad (ahead server.now s))) }
{
    buffers::equal(first(client, c), first(server, s))
}
