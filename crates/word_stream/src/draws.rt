//! Numbers drawn from a source of random words, and the source of a job.

ghost use Rattle.std.specs.Prelude.{◌≡◌, ℕ, ◌<◌, ◌^◌};
ghost use Rattle.rand_chacha.specs.ChaCha.{word_at, key_of};
ghost use Rattle.word_stream.specs.Words.{below, rest, word};
ghost use Rattle.word_stream.specs.Jobs.{job_source, job_words, seed_bytes};

use rand_chacha::ChaCha8Rng;
use rand_core::{Rng, SeedableRng};
use std::marker::Model;

/// Numbers drawn from a source of random words. A contract sees it as the source.
#[derive(Drop)]
pub struct Draws<R: Rng> {
    source: R,
}

impl<R: Rng> Model for Draws<R> {
    ghost Value = { R };

    ghost view = { λ d. d.source };
}

impl<R: Rng> Draws<R> {
    /// Draws from the next word of `source` on.
    pub fn new(source: R) -> Draws<R>
        ensures { result ≡ source }
    {
        Draws { source }
    }

    /// Takes the next 32-bit word, and answers it modulo `n`.
    pub fn below(&mut self, n: u32) -> u32
        requires { 0 < n }
        ensures value { result ≡ below n (R.stream self.old) }
        ensures range { result < n }
        ensures rest { R.stream self.new ≡ rest (R.stream self.old) }
    {
        self.source.next_u32() % n
    }
}

// The seed's eight bytes, least byte first, and then zeros.
fn key_bytes(seed: u64) -> [u8; 32]
    ensures { result ≡ seed_bytes seed }
{
    let mut key = [0; 32];
    key[0..8].copy_from_slice(&seed.to_le_bytes());
    key
}

/// The draws of the job with this number under this seed: the words of ChaCha8, whose key of 32 bytes is
/// the seed's eight bytes, least byte first, and then zeros, on the stream with the job's number,
/// from its first word on.
pub fn job_draws(seed: u64, job: u64) -> Draws<ChaCha8Rng>
    ensures source { result ≡ job_source seed job }
    ensures stream { ⟦<ChaCha8Rng as Rng>⟧.stream result ≡ job_words seed job }
    ensures words { (k : ℕ) → k < 2 ^ 68
        → word k (⟦<ChaCha8Rng as Rng>⟧.stream result) ≡ word_at 4 (key_of (seed_bytes seed)) job k }
{
    let mut source = ChaCha8Rng::from_seed(key_bytes(seed));
    source.set_stream(job);
    Draws::new(source)
}
