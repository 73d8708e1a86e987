// Numbers of 32 and of 64 bits as bytes, the highest first (FIPS 180-4, section 3.1), and back.
#![tactic(auto)]

ghost use Rattle.std.specs.Prelude.{◌≡◌, ◌+◌, ◌*◌};
ghost use Rattle.sha_words.specs.Message.{bytes_of};

// The number of four bytes.
pub fn join_32(b0: u8, b1: u8, b2: u8, b3: u8) -> u32
    ensures { result ≡ ((b0 * 256 + b1) * 256 + b2) * 256 + b3 }
{
    u32::from_be_bytes([b0, b1, b2, b3])
}

// The number of eight bytes. They come one by one, as the four of `join_32` do: the contract speaks of each.
pub fn join_64(b0: u8, b1: u8, b2: u8, b3: u8, b4: u8, b5: u8, b6: u8, b7: u8) -> u64
    ensures { result ≡ ((((((b0 * 256 + b1) * 256 + b2) * 256 + b3) * 256 + b4) * 256 + b5) * 256 + b6) * 256 + b7 }
{
    u64::from_be_bytes([b0, b1, b2, b3, b4, b5, b6, b7])
}

// The four bytes of a number.
pub fn bytes_32(w: u32) -> [u8; 4]
    ensures { result ≡ bytes_of 4 w }
{
    u32::to_be_bytes(w)
}

// The eight bytes of a number.
pub fn bytes_64(w: u64) -> [u8; 8]
    ensures { result ≡ bytes_of 8 w }
{
    u64::to_be_bytes(w)
}
