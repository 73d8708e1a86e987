// The transcript as it is built in a lent buffer, which the specification calls the room: fields as strings one behind another, a field put
// in ahead of another, and all of it wiped.
#![tactic(auto)]

ghost use Rattle.std.specs.Prelude.{◌≡◌, [], ◌∷◌, ◌+◌, ◌≤◌, length, take, drop};
ghost use Rattle.buffers.specs.Bytes.{zeros, over, laid};
ghost use Rattle.transcript.specs.Fields.{field, field_size, size_sum, around};

// Fills a room, or the bytes of an exchange, with zeros.
pub fn wipe(room: &mut [u8])
    ensures { room.new ≡ zeros (length room.old) }
{
    room.fill(0);
}

// Bytes that a field of n bytes takes in the room: none where it is missing, else four more. Where that sum would pass the greatest
// size, the greatest size.
#[tactic(auto, using(crate::proofs::FieldLaws::field_size_none, crate::proofs::FieldLaws::field_size_stops))]
pub fn field_size(n: usize) -> usize
    ensures { result ≡ field_size n }
{
    if n == 0 { 0 } else { n.saturating_add(4) }
}

// Two sizes together; where the sum would pass the greatest size, the greatest size.
#[tactic(auto, using(crate::proofs::FieldLaws::size_sum_stops))]
pub fn add_sizes(a: usize, b: usize) -> usize
    ensures { result ≡ size_sum a b }
{
    a.saturating_add(b)
}

// Lays a field into the room from `at` on, where it fits there; else the room stays.
pub fn put_field(room: &mut [u8], at: usize, f: &[u8])
    ensures { room.new ≡ laid room.old at (field f.now) }
{
    if !f.is_empty() {
        writers::put_string(room, at, f);
    }
}

// Writes eight bytes into the room from `at` on.
fn put_eight(
    room: &mut [u8],
    at: usize,
    b0: u8,
    b1: u8,
    b2: u8,
    b3: u8,
    b4: u8,
    b5: u8,
    b6: u8,
    b7: u8,
)
    requires { at + 8 ≤ length room.old }
    ensures { room.new ≡ over room.old at (b0 ∷ b1 ∷ b2 ∷ b3 ∷ b4 ∷ b5 ∷ b6 ∷ b7 ∷ []) }
{
    room[at] = b0;
    room[at + 1] = b1;
    room[at + 2] = b2;
    room[at + 3] = b3;
    room[at + 4] = b4;
    room[at + 5] = b5;
    room[at + 6] = b6;
    room[at + 7] = b7;
}

// Copies the sixteen bytes at `from` to `to`. All are read before any is written: the two places may overlap, and the compiler moves them
// as one word.
fn move_sixteen(room: &mut [u8], from: usize, to: usize)
    requires { (from + 16 ≤ length room.old) × (to + 16 ≤ length room.old) }
    ensures { room.new ≡ over room.old to (take 16 (drop from room.old)) }
{
    let b0 = room[from];
    let b1 = room[from + 1];
    let b2 = room[from + 2];
    let b3 = room[from + 3];
    let b4 = room[from + 4];
    let b5 = room[from + 5];
    let b6 = room[from + 6];
    let b7 = room[from + 7];
    let c0 = room[from + 8];
    let c1 = room[from + 9];
    let c2 = room[from + 10];
    let c3 = room[from + 11];
    let c4 = room[from + 12];
    let c5 = room[from + 13];
    let c6 = room[from + 14];
    let c7 = room[from + 15];
    put_eight(room, to, b0, b1, b2, b3, b4, b5, b6, b7);
    put_eight(room, to + 8, c0, c1, c2, c3, c4, c5, c6, c7);
}

// Moves the len bytes at `at` up by so many, from their end: sixteen at a time, as the library's `copy_within` goes byte by byte; that moves
// what is left.
pub fn move_up(room: &mut [u8], at: usize, len: usize, by: usize)
    requires { at + by + len ≤ length room.old }
    ensures { room.new ≡ over room.old (at + by) (take len (drop at room.old)) }
{
    let mut left = len;
    while 16 <= left {
        left -= 16;
        move_sixteen(room, at + left, at + by + left);
    }
    room.copy_within(at..at + left, at + by);
}

// Puts one field in ahead of the len bytes that stand at `at` and another behind them, where all fits; else the room stays.
pub fn put_around(room: &mut [u8], at: usize, len: usize, ahead: &[u8], behind: &[u8])
    ensures { room.new ≡ around room.old at len ahead.now behind.now }
{
    let a = field_size(ahead.len());
    let b = field_size(behind.len());
    if room.len() < at {
        return;
    }
    let left = room.len() - at;
    if left < a {
        return;
    }
    if left - a < len {
        return;
    }
    if left - a - len < b {
        return;
    }
    move_up(room, at, len, a);
    put_field(room, at, ahead);
    put_field(room, at + a + len, behind);
}
