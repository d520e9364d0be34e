// The key expansion (FIPS 197 section 5.2). A schedule is an array of words, first byte highest, with
// room for the 60 words of the longest one.

ghost use Rattle.std.specs.Prelude.{◌≡◌, ◌%◌, ◌+◌, ◌-◌, ◌*◌, ◌/◌, ◌<◌, ◌≤◌, [], ◌∷◌, ℕ, length, take};
ghost use Rattle.crypto_specs.specs.Prelude.{IsKey, xor_words, sub_word, rot_word, schedule_core, next_word, key_schedule, round_count};
ghost use Rattle.aes_core.specs.Words.{word_bytes};

use crate::columns::word_of;
use crate::tables::sub_byte;

// Rcon: the first byte of each round constant, the powers of x.
const ROUND_CONSTANTS: [u8; 10] = [0x01, 0x02, 0x04, 0x08, 0x10, 0x20, 0x40, 0x80, 0x1b, 0x36];

fn xor_words(a: [u8; 4], b: [u8; 4]) -> [u8; 4]
    ensures { result ≡ xor_words a b }
{
    [a[0] ^ b[0], a[1] ^ b[1], a[2] ^ b[2], a[3] ^ b[3]]
}

fn sub_word(t: [u8; 4]) -> [u8; 4]
    ensures { result ≡ sub_word t }
{
    [
        sub_byte(t[0]),
        sub_byte(t[1]),
        sub_byte(t[2]),
        sub_byte(t[3]),
    ]
}

fn rot_word(t: [u8; 4]) -> [u8; 4]
    ensures { result ≡ rot_word t }
{
    [t[1], t[2], t[3], t[0]]
}

// What is xored into the word `words` before word `i`, where `t` is the word before it, and `turn` the place of word `i` among
// so many words.
fn schedule_core(words: usize, i: usize, turn: usize, t: u32) -> u32
    requires low { 4 ≤ words }
    requires high { words ≤ i }
    requires small { i < 11 * words }
    requires place { turn ≡ i % words }
    ensures { word_bytes (result ∷ []) ≡ schedule_core words i (word_bytes (t ∷ [])) }
{
    if turn == 0 {
        let core = xor_words(
            sub_word(rot_word(t.to_be_bytes())),
            [ROUND_CONSTANTS[i / words - 1], 0, 0, 0],
        );
        return word_of(&core);
    }
    if words > 6 && turn == 4 {
        return word_of(&sub_word(t.to_be_bytes()));
    }
    t
}

// Word `i` of the schedule, from the words before it.
fn next_word(schedule: &[u32; 60], words: usize, i: usize, turn: usize) -> u32
    requires low { 4 ≤ words }
    requires high { words ≤ i }
    requires small { i < 11 * words }
    requires end { i < 60 }
    requires place { turn ≡ i % words }
    ensures { word_bytes (result ∷ []) ≡ next_word words (word_bytes schedule.now) i }
{
    schedule[i - words] ^ schedule_core(words, i, turn, schedule[i - 1])
}

// The place among so many words of the word after that of another place.
fn next_turn(words: usize, turn: usize) -> usize
    requires { turn < words }
    ensures below { result < words }
    ensures next { (i : ℕ) → turn ≡ i % words → result ≡ (i + 1) % words }
{
    if turn + 1 == words { 0 } else { turn + 1 }
}

// The words of a key, and zeros after them.
fn with_room(key: &[u8]) -> [u32; 60]
    requires { IsKey key.now }
    ensures length { length result ≡ 60 }
    ensures words { word_bytes (take (length key.now / 4) result) ≡ key.now }
{
    let mut schedule = [0; 60];
    'words: for i in 0..key.len() / 4 {
        schedule[i] = word_of(&[key[4 * i], key[4 * i + 1], key[4 * i + 2], key[4 * i + 3]]);
    }
    schedule
}

// The schedule of a key that has so many rounds.
pub(crate) fn key_expansion(key: &[u8], rounds: usize) -> [u32; 60]
    requires key { IsKey key.now }
    requires count { rounds ≡ round_count key.now }
    ensures key { word_bytes (take (rounds - 6) result) ≡ key.now }
    ensures words { word_bytes (take (4 * (rounds + 1)) result) ≡ key_schedule key.now }
{
    let words = rounds - 6;
    let mut schedule = with_room(key);
    let mut turn = 0;
    'words: for i in words..4 * (rounds + 1) {
        let word = next_word(&schedule, words, i, turn);
        schedule[i] = word;
        let next = next_turn(words, turn);
        turn = next;
    }
    schedule
}
