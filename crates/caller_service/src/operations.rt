// Operations in several parts: hashes, MACs, ciphers, AEADs and derivations, and the abort of any operation. Derivations have
// names in `kdf_` in scripts and in docs/OPERATIONS.md.
ghost use Rattle.std.specs.Prelude.{◌≤◌, []};
ghost use Rattle.service_calls.specs.Asked.{sets_up, sets_up_with};
ghost use Rattle.service_calls.specs.declared.call.Call.TheVariants as calls;
ghost use Rattle.service_calls.specs.declared.handle_calls.HandleCall.TheVariants as handle_calls;
ghost use Rattle.service_calls.specs.declared.handle_calls.KeylessSetup.TheVariants as keyless;
ghost use Rattle.service_calls.specs.declared.handle_calls.Purpose.TheVariants as purposes;
ghost use Rattle.service_calls.specs.declared.steps.AeadStep.TheVariants as aead_steps;
ghost use Rattle.service_calls.specs.declared.steps.CipherStep.TheVariants as cipher_steps;
ghost use Rattle.service_calls.specs.declared.steps.DerivationStep.TheVariants as derivation_steps;
ghost use Rattle.service_calls.specs.declared.steps.HashStep.TheVariants as hash_steps;
ghost use Rattle.service_calls.specs.declared.steps.MacStep.TheVariants as mac_steps;
ghost use Rattle.service_calls.specs.declared.steps.Step.TheVariants as steps;
ghost use Rattle.caller_service.specs.{Clients.Answers, Given.identifier_of, Given.length_of, Given.nothing, Given.number_of, Replies.steps_on};

use crate::client::Client;
use crate::replies::Reply;
use admission::Admission;
use alg_encoding::Alg;
use callers::Gate;
use disk_face::Disk;
use driver_dispatch::Devices;
use key_attributes::{Attributes, KeyId};
use service_calls::{
    AeadStep, Call, CipherStep, DerivationStep, HandleCall, HashStep, KeylessSetup, MacStep, Op,
    Purpose, Step,
};
use std::sync::Wait;

impl<D: Disk, A: Devices, C: Admission, G: Gate, R: Wait> Client<'_, D, A, C, G, R> {
    /// Begins a hash. `BadState` where the handle isn't inactive, as with every setup.
    pub fn hash_setup(&mut self, op: Op, alg: Alg) -> Reply<()>
        ensures { Answers (sets_up op (keyless.Hash alg)) nothing self.old self.new [] [] result }
    {
        self.tell(&Call::OnHandle(op, HandleCall::set_up(KeylessSetup::Hash(alg))))
    }

    /// Adds to the message. `BadState` where the handle's operation isn't a hash, as with every step.
    pub fn hash_update(&mut self, op: Op, input: &[u8]) -> Reply<()>
        ensures { Answers (steps_on op (steps.Hash (hash_steps.Update input.entry))) nothing self.old self.new [] [] result }
    {
        self.advance(op, Step::Hash(HashStep::Update(input)))
    }

    /// Writes the hash of the message, gives its length, and ends the operation.
    pub fn hash_finish(&mut self, op: Op, out: &mut [u8]) -> Reply<usize>
        ensures { Answers (steps_on op (steps.Hash hash_steps.Finish)) length_of self.old self.new out.old out.new result }
    {
        self.step(op, Step::Hash(HashStep::Finish), out)
    }

    /// Compares the hash of the message with the one expected, and ends the operation. `InvalidSignature` where they differ.
    pub fn hash_verify(&mut self, op: Op, expected: &[u8]) -> Reply<()>
        ensures { Answers (steps_on op (steps.Hash (hash_steps.Verify expected.entry))) nothing self.old self.new [] [] result }
    {
        self.advance(op, Step::Hash(HashStep::Verify(expected)))
    }

    /// Begins the computation of a MAC. `NotPermitted` where the key's policy doesn't permit it, as with every setup with a key.
    pub fn mac_sign_setup(&mut self, op: Op, key: KeyId, alg: Alg) -> Reply<()>
        ensures { Answers (sets_up_with op key purposes.SignMac alg) nothing self.old self.new [] [] result }
    {
        self.begin(op, key, Purpose::SignMac, alg)
    }

    /// Begins the verification of a MAC.
    pub fn mac_verify_setup(&mut self, op: Op, key: KeyId, alg: Alg) -> Reply<()>
        ensures { Answers (sets_up_with op key purposes.VerifyMac alg) nothing self.old self.new [] [] result }
    {
        self.begin(op, key, Purpose::VerifyMac, alg)
    }

    /// Adds to the message. `InvalidHandle` where the key was destroyed meanwhile, as with every step of an operation with a key.
    pub fn mac_update(&mut self, op: Op, input: &[u8]) -> Reply<()>
        ensures { Answers (steps_on op (steps.Mac (mac_steps.Update input.entry))) nothing self.old self.new [] [] result }
    {
        self.advance(op, Step::Mac(MacStep::Update(input)))
    }

    /// Writes the MAC of the message, gives its length, and ends the operation. `BadState` on a verification.
    pub fn mac_sign_finish(&mut self, op: Op, out: &mut [u8]) -> Reply<usize>
        ensures { Answers (steps_on op (steps.Mac mac_steps.SignFinish)) length_of self.old self.new out.old out.new result }
    {
        self.step(op, Step::Mac(MacStep::SignFinish), out)
    }

    /// Compares the MAC of the message with the one expected, and ends the operation. `InvalidSignature` where they differ,
    /// `BadState` on a computation.
    pub fn mac_verify_finish(&mut self, op: Op, expected: &[u8]) -> Reply<()>
        ensures { Answers (steps_on op (steps.Mac (mac_steps.VerifyFinish expected.entry))) nothing self.old self.new [] [] result }
    {
        self.advance(op, Step::Mac(MacStep::VerifyFinish(expected)))
    }

    /// Begins an encryption.
    pub fn cipher_encrypt_setup(&mut self, op: Op, key: KeyId, alg: Alg) -> Reply<()>
        ensures { Answers (sets_up_with op key purposes.EncryptCipher alg) nothing self.old self.new [] [] result }
    {
        self.begin(op, key, Purpose::EncryptCipher, alg)
    }

    /// Begins a decryption.
    pub fn cipher_decrypt_setup(&mut self, op: Op, key: KeyId, alg: Alg) -> Reply<()>
        ensures { Answers (sets_up_with op key purposes.DecryptCipher alg) nothing self.old self.new [] [] result }
    {
        self.begin(op, key, Purpose::DecryptCipher, alg)
    }

    /// Draws an initialisation vector, writes it, and gives its length. `BadState` on a decryption, and where there is one.
    pub fn cipher_generate_iv(&mut self, op: Op, out: &mut [u8]) -> Reply<usize>
        ensures { Answers (steps_on op (steps.Cipher cipher_steps.GenerateIv)) length_of self.old self.new out.old out.new result }
    {
        self.step(op, Step::Cipher(CipherStep::GenerateIv), out)
    }

    /// Sets the initialisation vector. `InvalidArgument` where it hasn't 16 bytes, `BadState` where there is one.
    pub fn cipher_set_iv(&mut self, op: Op, iv: &[u8]) -> Reply<()>
        ensures { Answers (steps_on op (steps.Cipher (cipher_steps.SetIv iv.entry))) nothing self.old self.new [] [] result }
    {
        self.advance(op, Step::Cipher(CipherStep::SetIv(iv)))
    }

    /// Writes the output that is due with this input, and gives its length. `BadState` where an initialisation vector is missing.
    pub fn cipher_update(&mut self, op: Op, input: &[u8], out: &mut [u8]) -> Reply<usize>
        ensures { Answers (steps_on op (steps.Cipher (cipher_steps.Update input.entry))) length_of self.old self.new out.old out.new result }
    {
        self.step(op, Step::Cipher(CipherStep::Update(input)), out)
    }

    /// Writes the rest of the output, gives its length, and ends the operation. `InvalidArgument` where the mode doesn't permit
    /// the text's length; `InvalidPadding` where no padding ends it: then the buffer begins with 16 zeros.
    pub fn cipher_finish(&mut self, op: Op, out: &mut [u8]) -> Reply<usize>
        ensures { Answers (steps_on op (steps.Cipher cipher_steps.Finish)) length_of self.old self.new out.old out.new result }
    {
        self.step(op, Step::Cipher(CipherStep::Finish), out)
    }

    /// Begins an authenticated encryption.
    pub fn aead_encrypt_setup(&mut self, op: Op, key: KeyId, alg: Alg) -> Reply<()>
        ensures { Answers (sets_up_with op key purposes.EncryptAead alg) nothing self.old self.new [] [] result }
    {
        self.begin(op, key, Purpose::EncryptAead, alg)
    }

    /// Begins an authenticated decryption. What it gives must not be trusted before `aead_verify` succeeds.
    pub fn aead_decrypt_setup(&mut self, op: Op, key: KeyId, alg: Alg) -> Reply<()>
        ensures { Answers (sets_up_with op key purposes.DecryptAead alg) nothing self.old self.new [] [] result }
    {
        self.begin(op, key, Purpose::DecryptAead, alg)
    }

    /// Declares the lengths of associated data and text, before the nonce; CCM needs them. `InvalidArgument` above 2^32 - 1.
    pub fn aead_set_lengths(&mut self, op: Op, ad: u64, payload: u64) -> Reply<()>
        ensures { Answers (steps_on op (steps.Aead (aead_steps.SetLengths ad payload))) nothing self.old self.new [] [] result }
    {
        self.advance(op, Step::Aead(AeadStep::SetLengths { ad, payload }))
    }

    /// Draws a nonce, writes it, and gives its length. `BadState` on a decryption, and where there is one.
    pub fn aead_generate_nonce(&mut self, op: Op, out: &mut [u8]) -> Reply<usize>
        ensures { Answers (steps_on op (steps.Aead aead_steps.GenerateNonce)) length_of self.old self.new out.old out.new result }
    {
        self.step(op, Step::Aead(AeadStep::GenerateNonce), out)
    }

    /// Sets the nonce. `InvalidArgument` where the algorithm doesn't permit its length, `BadState` where there is one.
    pub fn aead_set_nonce(&mut self, op: Op, nonce: &[u8]) -> Reply<()>
        ensures { Answers (steps_on op (steps.Aead (aead_steps.SetNonce nonce.entry))) nothing self.old self.new [] [] result }
    {
        self.advance(op, Step::Aead(AeadStep::SetNonce(nonce)))
    }

    /// Adds to the associated data. `BadState` before the nonce and after the first text.
    pub fn aead_update_ad(&mut self, op: Op, input: &[u8]) -> Reply<()>
        ensures { Answers (steps_on op (steps.Aead (aead_steps.UpdateAd input.entry))) nothing self.old self.new [] [] result }
    {
        self.advance(op, Step::Aead(AeadStep::UpdateAd(input)))
    }

    /// Writes as many bytes of output as the input has, and gives how many. `InvalidArgument` past a declared length.
    pub fn aead_update(&mut self, op: Op, input: &[u8], out: &mut [u8]) -> Reply<usize>
        ensures { Answers (steps_on op (steps.Aead (aead_steps.Update input.entry))) length_of self.old self.new out.old out.new result }
    {
        self.step(op, Step::Aead(AeadStep::Update(input)), out)
    }

    /// Writes the tag of an encryption, gives its length, and ends the operation. `InvalidArgument` where a declared length isn't
    /// reached.
    pub fn aead_finish(&mut self, op: Op, tag: &mut [u8]) -> Reply<usize>
        ensures { Answers (steps_on op (steps.Aead aead_steps.Finish)) length_of self.old self.new tag.old tag.new result }
    {
        self.step(op, Step::Aead(AeadStep::Finish), tag)
    }

    /// Compares the tag of a decryption with this one, and ends the operation. `InvalidSignature` where they differ.
    pub fn aead_verify(&mut self, op: Op, tag: &[u8]) -> Reply<()>
        ensures { Answers (steps_on op (steps.Aead (aead_steps.Verify tag.entry))) nothing self.old self.new [] [] result }
    {
        self.advance(op, Step::Aead(AeadStep::Verify(tag)))
    }

    /// Begins a derivation, with the whole capacity of its algorithm.
    pub fn key_derivation_setup(&mut self, op: Op, alg: Alg) -> Reply<()>
        ensures { Answers (sets_up op (keyless.Derivation alg)) nothing self.old self.new [] [] result }
    {
        self.tell(&Call::OnHandle(op, HandleCall::set_up(KeylessSetup::Derivation(alg))))
    }

    /// Gives how many bytes can still be taken.
    pub fn key_derivation_get_capacity(&mut self, op: Op) -> Reply<u64>
        ensures { Answers (steps_on op (steps.Derivation derivation_steps.GetCapacity)) number_of self.old self.new [] [] result }
    {
        self.advance(op, Step::Derivation(DerivationStep::GetCapacity))
    }

    /// Lowers the capacity. `InvalidArgument` above the present one, and then the operation goes on.
    pub fn key_derivation_set_capacity(&mut self, op: Op, capacity: u64) -> Reply<()>
        ensures { Answers (steps_on op (steps.Derivation (derivation_steps.SetCapacity capacity))) nothing self.old self.new [] [] result }
    {
        self.advance(op, Step::Derivation(DerivationStep::SetCapacity(capacity)))
    }

    /// Takes the input of a step as bytes. `InvalidArgument` for a step that the algorithm hasn't, `BadState` where it isn't due.
    pub fn key_derivation_input_bytes(&mut self, op: Op, step: u16, bytes: &[u8]) -> Reply<()>
        ensures { Answers (steps_on op (steps.Derivation (derivation_steps.InputBytes step bytes.entry))) nothing self.old self.new [] [] result }
    {
        let input = DerivationStep::InputBytes { step, bytes };
        self.advance(op, Step::Derivation(input))
    }

    /// Takes the input of a step as a number, the cost of PBKDF2. `InvalidArgument` for 0, `NotSupported` above 100,000.
    pub fn key_derivation_input_integer(&mut self, op: Op, step: u16, value: u64) -> Reply<()>
        ensures { Answers (steps_on op (steps.Derivation (derivation_steps.InputInteger step value))) nothing self.old self.new [] [] result }
    {
        let input = DerivationStep::InputInteger { step, value };
        self.advance(op, Step::Derivation(input))
    }

    /// Takes the bytes of a key as the input of a step. `NotPermitted` where its policy doesn't permit the derivation.
    pub fn key_derivation_input_key(&mut self, op: Op, step: u16, key: KeyId) -> Reply<()>
        ensures { Answers (calls.OnHandle op (handle_calls.InputKey step key)) nothing self.old self.new [] [] result }
    {
        self.tell(&Call::OnHandle(op, HandleCall::InputKey { step, key }))
    }

    /// Fills the whole buffer with the next bytes, and gives its length. `InsufficientData` above the capacity, which is then 0.
    pub fn key_derivation_output_bytes(&mut self, op: Op, out: &mut [u8]) -> Reply<usize>
        ensures { Answers (steps_on op (steps.Derivation derivation_steps.OutputBytes)) length_of self.old self.new out.old out.new result }
    {
        let output = DerivationStep::OutputBytes;
        self.step(op, Step::Derivation(output), out)
    }

    /// Makes a key of the next bytes, as many as its bits say, and gives its identifier. `NotPermitted` where the secret came as
    /// bytes, `InsufficientData` above the capacity, and then the refusals of `import_key`.
    pub fn key_derivation_output_key(&mut self, op: Op, attributes: &Attributes) -> Reply<KeyId>
        ensures { Answers (calls.OnHandle op (handle_calls.OutputKey attributes.now)) identifier_of self.old self.new [] [] result }
    {
        self.tell(&Call::OnHandle(op, HandleCall::OutputKey(*attributes)))
    }

    /// Compares the next bytes with those expected. `InvalidSignature` where they differ; they count as taken.
    pub fn key_derivation_verify_bytes(&mut self, op: Op, expected: &[u8]) -> Reply<()>
        ensures { Answers (steps_on op (steps.Derivation (derivation_steps.VerifyBytes expected.entry))) nothing self.old self.new [] [] result }
    {
        self.advance(op, Step::Derivation(DerivationStep::VerifyBytes(expected)))
    }

    /// Wipes the operation of a handle, which is then inactive. Never refused, but with `PassWorn` on a handle that is inactive.
    pub fn abort(&mut self, op: Op) -> Reply<()>
        ensures { Answers (calls.OnHandle op handle_calls.Abort) nothing self.old self.new [] [] result }
    {
        self.tell(&Call::OnHandle(op, HandleCall::Abort))
    }
}
