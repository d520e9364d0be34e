//! Random bytes for several callers from one seed: the words of ChaCha20, one stream a caller.
//!
//! What is proved:
//!
//! - `Stream::fill`, `go_back`: `fill` gives the caller's next words of ChaCha20; words that `go_back` gives back are
//!   drawn again.
#![tactic(auto)]

ghost use Rattle.std.specs.Prelude.{◌≡◌, ◌+◌, ◌≤◌, length};
ghost use Rattle.random_streams.specs.RandomWords.{drawn_from, next_bytes, words_used, words_offered, RandomStream};

use rand_chacha::ChaCha20Rng;
use rand_core::SeedableRng;
use rand_core::utils::fill_bytes_via_u32;
use std::marker::Model;

/// The random words of one caller, and the place of the next one. A contract sees the seed, the
/// caller's number and the place.
#[derive(Drop)]
pub struct Stream {
    generator: ChaCha20Rng,
}

impl Model for Stream {
    ghost use Rattle.random_streams.specs.RandomWords.{RandomStream};

    ghost Value = { RandomStream };

    ghost use Rattle.random_streams.specs.Generator.{stream_of, IsSoundGenerator};

    ghost view = { λ s. stream_of s.generator };

    ghost invariant = { λ s. IsSoundGenerator s.generator };
}

impl Stream {
    /// The caller's stream, at its first word.
    pub fn new(seed: &[u8; 32], caller: u8) -> Stream
        ensures { result ≡ record { seed = seed.now; caller = caller; place = 0 } }
    {
        let mut generator = ChaCha20Rng::from_seed(*seed);
        generator.set_stream(u64::from(caller));
        Stream { generator }
    }

    /// Fills `out` with random bytes. Each four of them use a word, lowest byte first, and so do the
    /// one to three that are left. A stream offers 2^60 words.
    pub fn fill(&mut self, out: &mut [u8])
        requires { self.old.place + words_used (length out.old) ≤ words_offered }
        ensures bytes { out.new ≡ next_bytes self.old (length out.old) }
        ensures place { self.new ≡ drawn_from self.old (length out.old) }
    {
        fill_bytes_via_u32(&mut self.generator, out);
    }

    /// Fills `out` with the random bytes that come next. They are not drawn.
    pub fn peek(&self, out: &mut [u8])
        requires { self.now.place + words_used (length out.old) ≤ words_offered }
        ensures { out.new ≡ next_bytes self.now (length out.old) }
    {
        // To draw them and to go back would compute the block again.
        let mut ahead = Stream {
            generator: self.generator.clone().unwrap(),
        };
        ahead.fill(out);
    }

    /// How many words were drawn.
    pub fn place(&self) -> u64
        ensures value { result ≡ self.now.place }
        ensures bound { result ≤ words_offered }
    {
        self.generator.get_word_pos() as u64
    }

    /// Gives back the words from an earlier place on: they are drawn again.
    pub fn go_back(&mut self, place: u64)
        requires { place ≤ self.old.place }
        ensures { self.new ≡ record self.old { place = place } }
    {
        self.generator.set_word_pos(u128::from(place));
    }
}
