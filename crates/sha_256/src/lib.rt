// FIPS 180-4, sections 4.1.2 and 6.2: SHA-256's words of 32 bits, and the block function on them.
#![tactic(auto)]

ghost use Rattle.std.specs.Prelude.{◌≡◌};
ghost use Rattle.sha_words.specs.Constants.{bits32};
ghost use Rattle.sha_words.specs.Message.{value_after};
ghost use Rattle.std.proofs.Common.{rules};

use sha_blocks::Word;

#[derive(Clone, Copy)]
pub struct Word32(u32);

impl Word for Word32 {
    const BYTES: usize = 4;

    const ROUNDS: usize = 64;

    ghost BYTES = { 4 };

    ghost ROUNDS = { 64 };

    ghost width = { bits32 };

    ghost number = { λ x. x.0 };

    fn wrapping_add(self, other: Word32) -> Word32 {
        Word32(self.0.wrapping_add(other.0))
    }

    fn choose(self, yes: Word32, no: Word32) -> Word32 {
        Word32((self.0 & yes.0) ^ (!self.0 & no.0))
    }

    fn majority(self, y: Word32, z: Word32) -> Word32 {
        Word32((self.0 & y.0) ^ (self.0 & z.0) ^ (y.0 & z.0))
    }

    fn big_sigma0(self) -> Word32 {
        Word32(self.0.rotate_right(2) ^ self.0.rotate_right(13) ^ self.0.rotate_right(22))
    }

    fn big_sigma1(self) -> Word32 {
        Word32(self.0.rotate_right(6) ^ self.0.rotate_right(11) ^ self.0.rotate_right(25))
    }

    fn small_sigma0(self) -> Word32 {
        Word32(self.0.rotate_right(7) ^ self.0.rotate_right(18) ^ (self.0 >> 3))
    }

    fn small_sigma1(self) -> Word32 {
        Word32(self.0.rotate_right(17) ^ self.0.rotate_right(19) ^ (self.0 >> 10))
    }

    fn constant(t: usize) -> Word32 {
        Word32(sha_constants::k_256(t))
    }

    fn read(b: &[u8], at: usize) -> Word32 {
        let bytes: [u8; 4] = *b[at..at + 4].as_array().unwrap();
        let [b0, b1, b2, b3] = bytes;
        Word32(numbers::join_32(b0, b1, b2, b3))
    }

    fn put(self, out: &mut [u8], at: usize) {
        buffers::put_array(out, at, numbers::bytes_32(self.0));
    }

    ghost bytes = { Prim.search rules };

    ghost bytes_most = { Prim.search rules };

    ghost block = { Prim.search rules };

    ghost block_least = { Prim.search rules };

    ghost rounds = { Prim.search rules };

    ghost rounds_least = { Prim.search rules };
}

// The value after the whole blocks of m; as it was where m is less than one.
pub fn blocks(value: [u8; limits::H_SIZE], m: &[u8]) -> [u8; limits::H_SIZE]
    ensures { result ≡ value_after bits32 value m.now }
{
    let mut words = [Word32(0); 64];
    sha_blocks::blocks(value, m, &mut words)
}
