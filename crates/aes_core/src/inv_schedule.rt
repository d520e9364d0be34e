// The key schedule of the equivalent inverse cipher (FIPS 197 section 5.3.5).

ghost use Rattle.std.specs.Prelude.{◌<◌, ◌≤◌};
ghost use Rattle.aes_core.specs.KeyFields.{IsInvScheduleOf};

use crate::inv_word_tables::inv_mixed_word;

// The first and the last round key stay, and InvMixColumns is taken of those between them.
pub(crate) fn inv_key_expansion(schedule: &[u32; 60], rounds: usize) -> [u32; 60]
    requires low { 1 ≤ rounds }
    requires high { rounds < 15 }
    ensures { IsInvScheduleOf rounds schedule.now result }
{
    let mut inverse = *schedule;
    'words: for i in 4..4 * rounds {
        let word = inv_mixed_word(schedule[i]);
        inverse[i] = word;
    }
    inverse
}
