// What the words of the program ask for.
ghost use Rattle.std.specs.Prelude.{◌≡◌, ◌≤◌, ◌%◌};

/// What reads a text, and gives a digest or a tag.
#[derive(Clone, Copy, Drop)]
pub enum Digest {
    /// SHA-256 by the crate `sha2` alone.
    Sha2,
    Sha256,
    Hmac,
    Cmac,
    /// A block of PBKDF2-HMAC-SHA-256 of 10,000 turns, with the text as its salt.
    Pbkdf2,
}

/// What changes a text.
#[derive(Clone, Copy, Drop)]
pub enum Cipher {
    Ecb,
    EcbDecryption,
    Cbc,
    CbcDecryption,
    Ctr,
}

/// What changes a text, and gives a tag.
#[derive(Clone, Copy, Drop)]
pub enum Aead {
    Gcm,
    Ccm,
}

#[derive(Clone, Copy, Drop)]
pub enum Algorithm {
    Digest(Digest),
    Cipher(Cipher),
    Aead(Aead),
}

/// What has updates: an algorithm of an operation in several parts.
#[derive(Clone, Copy, Drop)]
pub enum Family {
    Sha256,
    Hmac,
    Cmac,
    Ctr,
    Cbc,
    Gcm,
    Ccm,
}

/// What runs: an algorithm over a whole text, or the update of an operation with one.
#[derive(Clone, Copy, Drop)]
pub enum Work {
    Whole(Algorithm),
    Update(Family),
}

/// The names of all works.
const NAMES: &[(&str, Work)] = &[
    ("sha2", Work::Whole(Algorithm::Digest(Digest::Sha2))),
    ("sha256", Work::Whole(Algorithm::Digest(Digest::Sha256))),
    ("hmac", Work::Whole(Algorithm::Digest(Digest::Hmac))),
    ("cmac", Work::Whole(Algorithm::Digest(Digest::Cmac))),
    ("pbkdf2", Work::Whole(Algorithm::Digest(Digest::Pbkdf2))),
    ("ecb", Work::Whole(Algorithm::Cipher(Cipher::Ecb))),
    (
        "ecb_decryption",
        Work::Whole(Algorithm::Cipher(Cipher::EcbDecryption)),
    ),
    ("cbc", Work::Whole(Algorithm::Cipher(Cipher::Cbc))),
    (
        "cbc_decryption",
        Work::Whole(Algorithm::Cipher(Cipher::CbcDecryption)),
    ),
    ("ctr", Work::Whole(Algorithm::Cipher(Cipher::Ctr))),
    ("gcm", Work::Whole(Algorithm::Aead(Aead::Gcm))),
    ("ccm", Work::Whole(Algorithm::Aead(Aead::Ccm))),
    ("sha256_update", Work::Update(Family::Sha256)),
    ("hmac_update", Work::Update(Family::Hmac)),
    ("cmac_update", Work::Update(Family::Cmac)),
    ("ctr_update", Work::Update(Family::Ctr)),
    ("cbc_update", Work::Update(Family::Cbc)),
    ("gcm_update", Work::Update(Family::Gcm)),
    ("ccm_update", Work::Update(Family::Ccm)),
];

impl Work {
    // The work of a name; `None` where it is the name of none.
    fn named(name: &str) -> Option<Work> {
        for (other, work) in NAMES {
            if *other == name {
                return Some(*work);
            }
        }
        None
    }
}

/// What runs, the number of bytes of its text, which has whole blocks, and how often.
#[derive(Clone, Copy, Drop)]
pub struct Job {
    pub work: Work,
    pub bytes: usize,
    pub turns: usize,
    ghost some: { 16 ≤ bytes },
    ghost most: { bytes ≤ 65536 },
    ghost whole: { bytes % 16 ≡ 0 },
}

impl Job {
    /// The job that three words ask for; `None` where they ask for none.
    pub fn asked_by(name: &str, bytes: &str, turns: &str) -> Option<Job> {
        let work = Work::named(name)?;
        let bytes: usize = bytes.parse().ok()?;
        let turns: usize = turns.parse().ok()?;
        if bytes < 16 || bytes > 65536 || bytes % 16 != 0 {
            return None;
        }
        Some(Job { work, bytes, turns })
    }
}
