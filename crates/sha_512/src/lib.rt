// FIPS 180-4, sections 4.1.3 and 6.4: the words of 64 bits of SHA-384 and SHA-512, and the block function on them.
#![tactic(auto)]

ghost use Rattle.std.specs.Prelude.{◌≡◌};
ghost use Rattle.sha_words.specs.Constants.{bits64};
ghost use Rattle.sha_words.specs.Message.{value_after};
ghost use Rattle.std.proofs.Common.{rules};

use sha_blocks::Word;

#[derive(Clone, Copy)]
pub struct Word64(u64);

impl Word for Word64 {
    const BYTES: usize = 8;

    const ROUNDS: usize = 80;

    ghost BYTES = { 8 };

    ghost ROUNDS = { 80 };

    ghost width = { bits64 };

    ghost number = { λ x. x.0 };

    fn wrapping_add(self, other: Word64) -> Word64 {
        Word64(self.0.wrapping_add(other.0))
    }

    fn choose(self, yes: Word64, no: Word64) -> Word64 {
        Word64((self.0 & yes.0) ^ (!self.0 & no.0))
    }

    fn majority(self, y: Word64, z: Word64) -> Word64 {
        Word64((self.0 & y.0) ^ (self.0 & z.0) ^ (y.0 & z.0))
    }

    fn big_sigma0(self) -> Word64 {
        Word64(self.0.rotate_right(28) ^ self.0.rotate_right(34) ^ self.0.rotate_right(39))
    }

    fn big_sigma1(self) -> Word64 {
        Word64(self.0.rotate_right(14) ^ self.0.rotate_right(18) ^ self.0.rotate_right(41))
    }

    fn small_sigma0(self) -> Word64 {
        Word64(self.0.rotate_right(1) ^ self.0.rotate_right(8) ^ (self.0 >> 7))
    }

    fn small_sigma1(self) -> Word64 {
        Word64(self.0.rotate_right(19) ^ self.0.rotate_right(61) ^ (self.0 >> 6))
    }

    fn constant(t: usize) -> Word64 {
        Word64(sha_constants::k_512(t))
    }

    fn read(b: &[u8], at: usize) -> Word64 {
        let bytes: [u8; 8] = *b[at..at + 8].as_array().unwrap();
        let [b0, b1, b2, b3, b4, b5, b6, b7] = bytes;
        Word64(numbers::join_64(b0, b1, b2, b3, b4, b5, b6, b7))
    }

    fn put(self, out: &mut [u8], at: usize) {
        buffers::put_array(out, at, numbers::bytes_64(self.0));
    }

    ghost bytes = { Prim.search rules };

    ghost bytes_most = { Prim.search rules };

    ghost block = { Prim.search rules };

    ghost block_least = { Prim.search rules };

    ghost rounds = { Prim.search rules };

    ghost rounds_least = { Prim.search rules };
}

// The value after the whole blocks of m; as it was where m is less than one.
pub fn blocks(value: [u8; limits::H_SIZE], m: &[u8]) -> [u8; limits::H_SIZE]
    ensures { result ≡ value_after bits64 value m.now }
{
    let mut words = [Word64(0); 80];
    sha_blocks::blocks(value, m, &mut words)
}
