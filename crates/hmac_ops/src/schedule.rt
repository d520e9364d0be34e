// The message schedule of a block (FIPS 180-4, section 6.2.2, step 1).

ghost use Rattle.std.specs.Prelude.{◌≡◌, ◌+◌, ◌-◌, ◌<◌, ◌≤◌, ℕ, List, take};
ghost use Rattle.sha2.specs.Sha256.{first_words, schedule, word_at};

use crate::words::{small_sigma0, small_sigma1};

// The word at byte `i` of a block.
#[inline(always)]
fn word_at(block: &[u8; 64], i: usize) -> u32
    requires { i + 4 ≤ 64 }
    ensures { result ≡ word_at block.now i }
{
    u32::from_be_bytes([block[i], block[i + 1], block[i + 2], block[i + 3]])
}

// Writes the sixteen words of a block, which begin its schedule.
#[inline(always)]
fn put_block_words(words: &mut [u32; 64], block: &[u8; 64])
    ensures { take 16 words.new ≡ first_words block.now 16 }
{
    'words: for t in 0..16 {
        words[t] = word_at(block, 4 * t);
    }
}

// Writes word `t`, which follows from those before it.
#[inline(always)]
fn put_next_word(words: &mut [u32; 64], t: usize)
    requires low { 16 ≤ t }
    requires high { t < 64 }
    ensures { (b : List ℕ) → take t words.old ≡ schedule b (t - 16) → take (t + 1) words.new ≡ schedule b (t + 1 - 16) }
{
    let word = small_sigma1(words[t - 2])
        .wrapping_add(words[t - 7])
        .wrapping_add(small_sigma0(words[t - 15]))
        .wrapping_add(words[t - 16]);
    words[t] = word;
}

// Writes eight words from word `t` on.
#[inline(always)]
fn put_eight_words(words: &mut [u32; 64], t: usize)
    requires low { 16 ≤ t }
    requires high { t + 8 ≤ 64 }
    ensures { (b : List ℕ) → take t words.old ≡ schedule b (t - 16) → take (t + 8) words.new ≡ schedule b (t + 8 - 16) }
{
    put_next_word(words, t);
    put_next_word(words, t + 1);
    put_next_word(words, t + 2);
    put_next_word(words, t + 3);
    put_next_word(words, t + 4);
    put_next_word(words, t + 5);
    put_next_word(words, t + 6);
    put_next_word(words, t + 7);
}

// Writes W_0, .., W_63.
#[inline(always)]
pub fn message_schedule(words: &mut [u32; 64], block: &[u8; 64])
    ensures { words.new ≡ schedule block.now 48 }
{
    put_block_words(words, block);
    'turns: for turn in 2..8 {
        put_eight_words(words, 8 * turn);
    }
}
