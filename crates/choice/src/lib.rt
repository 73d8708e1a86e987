// The choice from a client's and a server's KEXINIT (RFC 4253, section 7.1): the first client name that counts and stands in the
// server's list.
#![tactic(auto)]

ghost use Rattle.std.specs.Prelude.{◌≡◌};
ghost use Rattle.wire.specs.Parts.{bytes_at, place_at};
ghost use Rattle.kexinit.specs.Reader.{head_told, open_head};
ghost use Rattle.common.specs.Common.{any};
ghost use Rattle.choice.specs.Choice.{payload_cause, judged_head, choice_told, chosen};

use kexinit::{Fixed, Refused};
use limits::Refusal;
use wire::Part;

// What is chosen: the method, the host key name's place in the client's payload, and whether each side's next packet is to be ignored.
#[derive(Clone, Copy)]
pub struct Chosen {
    pub method: u8,
    pub host_key: Part,
    pub ignore_client: bool,
    pub ignore_server: bool,
}

// Judges a payload and every name of its ten lists: 10 to 13, then 19; or its cookie, boolean and reserved number.
fn judge_payload(payload: &[u8]) -> Result<Fixed, Refused>
    ensures { head_told result ≡ judged_head payload.now }
{
    let fixed = kexinit::open_head(payload)?;
    for i in 0..limits::LIST_COUNT {
        let c = kexinit::list_cursor(payload, i);
        names::judge_names(payload, c).map_err(|cause| Refused { cause, position: 0 })?;
    }
    Ok(fixed)
}

// What two good payloads have in common: 20 with no method, then 21 with no host key name. Each side says whether a packet of its own follows.
fn match_lists(
    client: &[u8],
    server: &[u8],
    client_follows: bool,
    server_follows: bool,
) -> Result<Chosen, Refusal>
    requires { (payload_cause client.now ≡ 0) × (payload_cause server.now ≡ 0) × (client_follows ≡ (open_head client.now).follows) × (server_follows ≡ (open_head server.now).follows) }
    ensures { choice_told result ≡ chosen any client.now server.now }
{
    let kc = kexinit::list_cursor(client, 0);
    let ks = kexinit::list_cursor(server, 0);
    let method = common::common_method(client, kc, server, ks).ok_or(Refusal::NoCommonMethod)?;
    let hc = kexinit::list_cursor(client, 1);
    let hs = kexinit::list_cursor(server, 1);
    let host_key = common::common_name(client, hc, server, hs).ok_or(Refusal::NoCommonHostKey)?;
    let wrong = !common::same_first(client, kc, server, ks)
        || !common::same_first(client, hc, server, hs);
    Ok(Chosen {
        method,
        host_key,
        ignore_client: client_follows & wrong,
        ignore_server: server_follows & wrong,
    })
}

// Chooses: the client's payload is judged whole, then the server's, then 20 with no common method, then 21 with no common host
// key name.
pub fn choose(client: &[u8], server: &[u8]) -> Result<Chosen, Refusal>
    ensures { choice_told result ≡ chosen any client.now server.now }
{
    let a = judge_payload(client)?;
    let b = judge_payload(server)?;
    match_lists(client, server, a.follows, b.follows)
}

// The host key name that was chosen, as a part of the client's payload.
pub fn host_key_name<'a>(client: &'a [u8], server: &[u8]) -> &'a [u8]
    ensures { (result.now ≡ bytes_at client.now (chosen any client.now server.now).host_key) × (result.ref_ptr ≡ place_at client.entry.ref_ptr (chosen any client.now server.now).host_key) }
{
    match choose(client, server) {
        Ok(c) => wire::part_of(client, c.host_key),
        Err(_) => &client[..0],
    }
}
