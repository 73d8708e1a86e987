// The specification's sizes (docs/SPECIFICATION.md, 6) and the boundary's own, one table for every layer above, and whether a number lies between two of them. specs/Limits.antt
// has the same table for the contracts.
#![tactic(auto)]

ghost use Rattle.std.specs.Prelude.{◌≡◌};
ghost use Rattle.limits.specs.Range.{within};
ghost use Rattle.limits.specs.Refusals.{number_of, told};

// A version, without its line's end.
pub const VERSION_MOST: usize = 253;

// A KEXINIT payload, and one as it stands in the hash input.
pub const KEXINIT_MOST: usize = 4096;

// The payload of INIT or REPLY.
pub const PAYLOAD_MOST: usize = 32768;

// A host key, and a signature.
pub const BLOB_MOST: usize = 2048;

// A name of a name-list.
pub const NAME_MOST: usize = 64;

// A string's body: what its four length bytes can say.
pub const STRING_MOST: usize = 4294967295;

// The cookie of a KEXINIT, and how many name-lists follow it.
pub const COOKIE_SIZE: usize = 16;

pub const LIST_COUNT: usize = 10;

// The K record, and the least output for K.
pub const K_SIZE: usize = 71;

// What one hash may be fed in all; a block at its longest, and so what can wait for one; H, and a digest, zeros after it.
pub const HASH_MOST: usize = 65536;

pub const BLOCK_MOST: usize = 128;

pub const H_SIZE: usize = 64;

// What a KEM gives, K_PQ.
pub const K_PQ_SIZE: usize = 32;

// A hash as it is lent at the boundary: its kind, two counts of eight bytes, the hash value, what waits for a block.
pub const HASH_SIZE: usize = 209;

// A length that an exchange records: what its two bytes can say.
pub const LENGTH_MOST: usize = 65535;

// A key, of 1 byte or more; its letter, from A to F.
pub const KEY_MOST: usize = 128;

pub const LETTER_FIRST: usize = 65;

pub const LETTER_LAST: usize = 70;

// Exchanges that one session completes.
pub const COUNT_MOST: u64 = 4294967295;

// An exchange as it is lent at the boundary: the mark of its layout, stage, fail number, role and method, seven lengths of two bytes, K, H; and what
// lasts over the exchanges of a session: the identifier's length in two bytes, the count in eight, the identifier.
pub const EXCHANGE_SIZE: usize = 228;

// The mark: another layout takes another, so that bytes of an older library, and bytes that were wiped, are no exchange's.
pub const EXCHANGE_MARK: u8 = 3;

// The boundary's own number, which the header repeats: it goes up by one where an entry or a size changes.
pub const LIBRARY_VERSION: u64 = 6;

// The least room that may be lent: 32 + 506 + 8,192 + 2,048 + 3,330 + 48 bytes.
pub const ROOM_LEAST: usize = 14156;

// The least outputs for INIT and for REPLY.
pub const INIT_LEAST: usize = 1670;

pub const REPLY_LEAST: usize = 5774;

// The last method.
pub const METHOD_LAST: u8 = 9;

// The two roles.
pub const CLIENT: u8 = 1;

pub const SERVER: u8 = 2;

// Whether n lies from lo to hi.
pub fn in_range(lo: usize, hi: usize, n: usize) -> bool
    ensures { result ≡ within lo hi n }
{
    (lo..=hi).contains(&n)
}

// Why a call is refused (SPECIFICATION 2.2). A variant as a number is its row's.
#[derive(Clone, Copy, PartialEq, Eq)]
pub enum Refusal {
    NotDue = 1,
    NoMethod = 2,
    RoomTooShort = 3,
    BadInput = 4,
    OutputTooShort = 5,
    PayloadSize = 10,
    OtherMessage = 11,
    FieldPastEnd = 12,
    BytesLeft = 13,
    FieldLength = 14,
    PointLead = 15,
    ClassicalFailed = 16,
    KemFailed = 17,
    VerdictNo = 18,
    BadName = 19,
    NoCommonMethod = 20,
    NoCommonHostKey = 21,
    LongMpint = 22,
    CountSpent = 23,
}

impl Refusal {
    // Its number.
    pub fn number(self) -> u8
        ensures { result ≡ number_of self }
    {
        self as u8
    }
}

// The number that a call answers: 0, or its refusal's.
pub fn number_told(r: Result<(), Refusal>) -> u8
    ensures { result ≡ told r }
{
    match r {
        Ok(()) => 0,
        Err(e) => e.number(),
    }
}
