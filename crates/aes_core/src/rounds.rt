// The cipher and its inverse, round by round over the schedule (FIPS 197 sections 5.1 and 5.3.5).

ghost use Rattle.std.specs.Prelude.{◌≡◌, ◌-◌, ◌%◌, ◌<◌, ◌≤◌, ℕ, List};
ghost use Rattle.crypto_specs.specs.Prelude.{number_block, cipher, rounds, inv_cipher, inv_rounds};
ghost use Rattle.aes_core.specs.{Words.word_bytes, KeyFields.IsInvScheduleOf};

use crate::columns::{add_round_key, block_of, columns_of, last_columns, mixed_columns};
use crate::inv_columns::{inv_last_columns, inv_mixed_columns};

// By tables. A block is a number whose highest byte is the first one.
pub(crate) fn cipher(schedule: &[u32; 60], rounds: usize, block: u128) -> u128
    requires low { 1 ≤ rounds }
    requires high { rounds < 15 }
    ensures { number_block result ≡ cipher (word_bytes schedule.now) rounds (number_block block) }
{
    let mut state = first_rounds(schedule, rounds, block);
    let mut round = 2 - rounds % 2;
    // Two rounds a turn, so that the columns need not be moved after each.
    'rounds: while round < rounds {
        let next = add_round_key(schedule, mixed_columns(state), round);
        state = add_round_key(schedule, mixed_columns(next), round + 1);
        round += 2;
    }
    block_of(&add_round_key(schedule, last_columns(state), rounds))
}

// The state that an even number of rounds but the last one are left for.
fn first_rounds(schedule: &[u32; 60], count: usize, block: u128) -> [u32; 4]
    requires { 1 ≤ count }
    ensures { word_bytes result ≡ rounds (word_bytes schedule.now) (number_block block) (1 - count % 2) }
{
    let state = add_round_key(schedule, columns_of(block), 0);
    if count % 2 == 1 {
        return state;
    }
    add_round_key(schedule, mixed_columns(state), 1)
}

// The equivalent inverse cipher, by tables (section 5.3.5). A block is a number as above.
pub(crate) fn eq_inv_cipher(inverse: &[u32; 60], rounds: usize, block: u128) -> u128
    requires low { 1 ≤ rounds }
    requires high { rounds < 15 }
    ensures { (schedule : List ℕ) → IsInvScheduleOf rounds schedule inverse.now
        → number_block result ≡ inv_cipher (word_bytes schedule) rounds (number_block block) }
{
    let mut state = first_inv_rounds(inverse, rounds, block);
    let mut round = 2 - rounds % 2;
    'inv_rounds: while round < rounds {
        let next = add_round_key(inverse, inv_mixed_columns(state), rounds - round);
        state = add_round_key(inverse, inv_mixed_columns(next), rounds - round - 1);
        round += 2;
    }
    block_of(&add_round_key(inverse, inv_last_columns(state), 0))
}

// As `first_rounds`, of the inverse cipher.
fn first_inv_rounds(inverse: &[u32; 60], count: usize, block: u128) -> [u32; 4]
    requires low { 1 ≤ count }
    requires high { count < 15 }
    ensures { (schedule : List ℕ) → IsInvScheduleOf count schedule inverse.now
        → word_bytes result ≡ inv_rounds (word_bytes schedule) count (number_block block) (1 - count % 2) }
{
    let state = add_round_key(inverse, columns_of(block), count);
    if count % 2 == 1 {
        return state;
    }
    add_round_key(inverse, inv_mixed_columns(state), count - 1)
}
