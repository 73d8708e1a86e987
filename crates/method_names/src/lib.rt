// The names of the methods: the number of a name, the name of a number.
#![tactic(auto)]

ghost use Rattle.std.specs.Prelude.{◌≡◌};
ghost use Rattle.buffers.specs.Bytes.{same, laid};
ghost use Rattle.methods.specs.Rows.{row_of, name_of, number_of};

// The name, lent from where constants lie; empty for a number that is no method. A call of its own, since it is one table only so.
#[tactic(auto, unfolding(methods::specs::Rows::row_of, methods::specs::Rows::rows))]
#[inline(never)]
fn text_of(number: u8) -> &'static [u8]
    ensures { result.now ≡ name_of (row_of number) }
{
    match number {
        1 => b"curve25519-sha256",
        2 => b"curve25519-sha256@libssh.org",
        3 => b"curve448-sha512",
        4 => b"ecdh-sha2-nistp256",
        5 => b"ecdh-sha2-nistp384",
        6 => b"ecdh-sha2-nistp521",
        7 => b"mlkem768nistp256-sha256",
        8 => b"mlkem1024nistp384-sha384",
        9 => b"mlkem768x25519-sha256",
        _ => b"",
    }
}

// How long the name is: the row's own number, so that the search knows a name of another length without a look at the text.
#[tactic(auto, unfolding(methods::specs::Rows::row_of, methods::specs::Rows::rows))]
pub fn name_len(number: u8) -> usize
    ensures { result ≡ (row_of number).name_len }
{
    match number {
        1 => 17,
        2 => 28,
        3 => 15,
        4 => 18,
        5 => 18,
        6 => 18,
        7 => 23,
        8 => 24,
        9 => 21,
        _ => 0,
    }
}

// Whether this is the name of a method's number. A call of its own, since the search's count of nine is unrolled.
#[inline(never)]
fn is_name(name: &[u8], number: u8) -> bool
    ensures { result ≡ same name.now (name_of (row_of number)) }
{
    buffers::equal(name, text_of(number))
}

// The number of the method of this name, 0 where there is none: no Option, since the C interface needs that 0, and the table's `number_of` gives it.
pub fn number_of(name: &[u8]) -> u8
    ensures { result ≡ number_of name.now }
{
    for number in 1..=limits::METHOD_LAST {
        if name.len() == name_len(number) && is_name(name, number) {
            return number;
        }
    }
    0
}

// Lays the name of a method at the beginning of out, where it fits; else out stays.
pub fn put_name(out: &mut [u8], number: u8)
    ensures { out.new ≡ laid out.old 0 (name_of (row_of number)) }
{
    buffers::put_bytes(out, 0, text_of(number));
}
