// Operations in several parts, whose updates run again and again.
use crate::jobs::Family;
use aead_states::AeadState;
use alg_encoding::Alg;
use cipher_states::CipherState;
use key_policy::NamedAlgorithm;
use mac_states::{HashOpState, MacState};
use multipart::Family as _;
use psa_status::Status;
use service_calls::{AeadStep, CipherStep, HashStep, MacStep};

/// So many updates are made of one operation, which takes at most 2^32 - 1 bytes.
const UPDATES: usize = 4096;

const KEY: [u8; 16] = [0; 16];

const IV: [u8; 16] = [0; 16];

const NONCE: [u8; 12] = [0; 12];

// Random bytes for a step that takes none.
const NO_RANDOM: [u8; 16] = [0; 16];

impl Family {
    // The number of its algorithm.
    fn algorithm(self) -> Alg {
        match self {
            Family::Sha256 => Alg(0x0200_0009),
            Family::Hmac => Alg(0x0380_0009),
            Family::Cmac => Alg(0x03c0_0200),
            Family::Ctr => Alg(0x04c0_1000),
            Family::Cbc => Alg(0x0440_4000),
            Family::Gcm => Alg(0x0550_0200),
            Family::Ccm => Alg(0x0550_0100),
        }
    }
}

// The states of the operations of all families, of which one runs.
#[derive(Drop)]
struct States {
    hash: HashOpState,
    mac: MacState,
    cipher: CipherState,
    aead: AeadState,
}

impl States {
    // All of them inactive.
    fn new() -> States {
        States {
            hash: HashOpState::new(),
            mac: MacState::new(),
            cipher: CipherState::new(),
            aead: AeadState::new(),
        }
    }

    // Begins a family's operation anew: the lengths of CCM, and a vector or a nonce, come before the text.
    fn begin(&mut self, family: Family) -> Result<(), Status> {
        let alg = NamedAlgorithm::of(family.algorithm());
        match family {
            Family::Sha256 => {
                self.hash.wipe();
                self.hash.hash_setup(alg.number())
            }
            Family::Hmac | Family::Cmac => {
                alg.mac()?;
                self.mac.wipe();
                self.mac.mac_sign_setup(&KEY, alg)
            }
            Family::Ctr | Family::Cbc => {
                alg.cipher()?;
                self.cipher.wipe();
                self.cipher.cipher_encrypt_setup(&KEY, alg)?;
                self.cipher
                    .step(CipherStep::SetIv(&IV), &NO_RANDOM, &mut [])?;
                Ok(())
            }
            Family::Gcm | Family::Ccm => {
                alg.aead()?;
                self.aead.wipe();
                self.aead.aead_encrypt_setup(&KEY, alg)?;
                self.set_nonce(family)
            }
        }
    }

    // Gives an AEAD its nonce, and CCM its lengths before.
    fn set_nonce(&mut self, family: Family) -> Result<(), Status> {
        let mut nonce = &NONCE[..];
        if let Family::Ccm = family {
            let lengths = AeadStep::SetLengths {
                ad: 0,
                payload: 0xffff_ffff,
            };
            self.aead.step(lengths, &NO_RANDOM, &mut [])?;
            // 11 bytes leave room for the longest payload.
            nonce = &NONCE[..11];
        }
        self.aead
            .step(AeadStep::SetNonce(nonce), &NO_RANDOM, &mut [])?;
        Ok(())
    }

    // One update, whose output goes to the front of `out`.
    fn update(&mut self, family: Family, text: &[u8], out: &mut [u8]) -> Result<(), Status> {
        match family {
            Family::Sha256 => self.hash.step(HashStep::Update(text), &NO_RANDOM, out)?,
            Family::Hmac | Family::Cmac => self.mac.step(MacStep::Update(text), &NO_RANDOM, out)?,
            Family::Ctr | Family::Cbc => self
                .cipher
                .step(CipherStep::Update(text), &NO_RANDOM, out)?,
            Family::Gcm | Family::Ccm => self.aead.step(AeadStep::Update(text), &NO_RANDOM, out)?,
        };
        Ok(())
    }
}

/// Makes so many updates of a family's operation with a text, whose output goes to the front of `out`.
pub fn run(family: Family, text: &[u8], out: &mut [u8], turns: usize) -> Result<(), Status> {
    let mut states = States::new();
    'turns: for i in 0..turns {
        if i % UPDATES == 0 {
            states.begin(family)?;
        }
        states.update(family, text, out)?;
    }
    Ok(())
}
