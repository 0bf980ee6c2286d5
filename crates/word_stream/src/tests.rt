//! Words of a list and of a job, beside those of the plain generator.

use super::*;
use rand_chacha::ChaCha8Rng;
use rand_core::{Rng, SeedableRng};
use std::process::Abort;
use std::test::Fail;

#[test]
fn draws_are_words_modulo(rt: HostRuntime) -> Result<(), Fail> {
    let words = [7, 4_294_967_295, 12, 5].to_vec(rt.alloc())?;
    let mut draws = Draws::new(Listed::new(words));
    // Past the list's end each word is 0.
    for (n, want) in [(4, 3), (10, 5), (12, 0), (1, 0), (9, 0), (4_294_967_295, 0)] {
        assert_eq!(rt; draws.below(n), want, "below {n}");
    }
    Ok(())
}

#[test]
fn listed_words_fill_bytes(rt: HostRuntime) -> Result<(), Fail> {
    let words = [1, 2, 0x0403_0201, 0x0807_0605].to_vec(rt.alloc())?;
    let mut source = Listed::new(words);
    assert_eq!(rt; source.next_u64(), (2 << 32) + 1);
    let mut bytes = [9u8; 10];
    source.fill_bytes(&mut bytes);
    assert_eq!(rt; bytes, [1, 2, 3, 4, 5, 6, 7, 8, 0, 0]);
    assert_eq!(rt; source.next_u32(), 0);
    Ok(())
}

// The plain calls of the generator, with the key written out.
fn same_as_plain(rt: &impl Abort, seed: u64, job: u64, key: [u8; 32]) {
    let mut draws = job_draws(seed, job);
    let mut plain = ChaCha8Rng::from_seed(key);
    plain.set_stream(job);
    for _ in 0..34 {
        assert_eq!(rt;
            draws.below(4_294_967_295),
            plain.next_u32() % 4_294_967_295
        );
    }
}

#[test]
fn job_words_are_the_generators(rt: HostRuntime) {
    let mut key = [0; 32];
    same_as_plain(&rt, 0, 0, key);
    same_as_plain(&rt, 0, 18_446_744_073_709_551_615, key);
    key[0] = 8;
    key[1] = 7;
    key[2] = 6;
    key[3] = 5;
    key[4] = 4;
    key[5] = 3;
    key[6] = 2;
    key[7] = 1;
    same_as_plain(&rt, 0x0102_0304_0506_0708, 0, key);
    same_as_plain(&rt, 0x0102_0304_0506_0708, 5, key);
}
