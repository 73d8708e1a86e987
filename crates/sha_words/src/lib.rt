// FIPS 180-4: words, blocks, padding and digests, defined once over the width of words. This crate has no code: the block function
// stands in sha_blocks, once over the words, which are those of sha_256 and of sha_512, and what is fed in parts in sha_2. proofs/ has the laws that they
// cite.
#![tactic(auto)]
