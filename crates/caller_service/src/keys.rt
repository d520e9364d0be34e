// Calls on keys, and computations in one part.
ghost use Rattle.std.specs.Prelude.{◌≤◌, []};
ghost use Rattle.service_calls.specs.Asked.{changes, computes, creates, hashes};
ghost use Rattle.service_calls.specs.declared.store_calls.Creation.TheVariants as creations;
ghost use Rattle.service_calls.specs.declared.store_calls.HashCall.TheVariants as hash_calls;
ghost use Rattle.service_calls.specs.declared.store_calls.KeyChange.TheVariants as key_changes;
ghost use Rattle.service_calls.specs.declared.store_calls.KeyedCall.TheVariants as keyed;
ghost use Rattle.caller_service.specs.{Given.description_of, Given.identifier_of, Given.length_of, Given.nothing, Clients.Answers};

use crate::client::Client;
use crate::replies::Reply;
use admission::Admission;
use alg_encoding::Alg;
use callers::Gate;
use disk_face::Disk;
use driver_dispatch::Devices;
use key_attributes::{Attributes, KeyId};
use service_calls::{Call, Creation, HashCall, KeyChange, KeyedCall, StoreCall};
use std::sync::Wait;

impl<D: Disk, A: Devices, C: Admission, G: Gate, R: Wait> Client<'_, D, A, C, G, R> {
    /// Makes a key of these bytes, and gives its identifier. `NotSupported` and `InvalidArgument` for what no key is;
    /// `KeyLimit`, `AlreadyExists` and `InsufficientStorage` where there is no room for it.
    pub fn import_key(&mut self, attributes: &Attributes, bytes: &[u8]) -> Reply<KeyId>
        ensures { Answers (creates (creations.Import attributes.now bytes.entry)) identifier_of self.old self.new [] [] result }
    {
        let import = Creation::Import {
            attributes: *attributes,
            bytes,
        };
        self.tell(&Call::OnStore(StoreCall::Create(import)))
    }

    /// Makes a key of random bytes, as many as its bits say, and gives its identifier. `InvalidArgument` for bits that say none,
    /// and then the refusals of `import_key`.
    pub fn generate_key(&mut self, attributes: &Attributes) -> Reply<KeyId>
        ensures { Answers (creates (creations.Generate attributes.now)) identifier_of self.old self.new [] [] result }
    {
        self.tell(&Call::OnStore(StoreCall::Create(Creation::Generate(*attributes))))
    }

    /// Makes a key of another's bytes, whose policy is the meet of both policies, and gives its identifier. `InvalidHandle`
    /// where there is no such key, `NotPermitted` where it may not be copied, and then the refusals of `import_key`.
    pub fn copy_key(&mut self, source: KeyId, attributes: &Attributes) -> Reply<KeyId>
        ensures { Answers (changes (key_changes.Copy source attributes.now)) identifier_of self.old self.new [] [] result }
    {
        let copy = KeyChange::Copy {
            source,
            attributes: *attributes,
        };
        self.tell(&Call::OnStore(StoreCall::Change(copy)))
    }

    /// Takes a key out of the store, for all callers. `InvalidHandle` where there is no such key; to destroy key 0, which is none,
    /// succeeds.
    pub fn destroy_key(&mut self, key: KeyId) -> Reply<()>
        ensures { Answers (changes (key_changes.Destroy key)) nothing self.old self.new [] [] result }
    {
        self.tell(&Call::OnStore(StoreCall::Change(KeyChange::Destroy(key))))
    }

    /// Lets a persistent key leave the memory; it stays in the store. `InvalidHandle` where there is no such key.
    pub fn purge_key(&mut self, key: KeyId) -> Reply<()>
        ensures { Answers (changes (key_changes.Purge key)) nothing self.old self.new [] [] result }
    {
        self.tell(&Call::OnStore(StoreCall::Change(KeyChange::Purge(key))))
    }

    /// Gives what is known of a key beside its bytes. `InvalidHandle` where there is none.
    pub fn get_key_attributes(&mut self, key: KeyId) -> Reply<Attributes>
        ensures { Answers (changes (key_changes.GetAttributes key)) description_of self.old self.new [] [] result }
    {
        self.tell(&Call::OnStore(StoreCall::Change(KeyChange::GetAttributes(key))))
    }

    /// Writes a key's bytes, and gives how many. `NotPermitted` without the usage EXPORT, `NotSupported` for a key in the secure
    /// element.
    pub fn export_key(&mut self, key: KeyId, out: &mut [u8]) -> Reply<usize>
        ensures { Answers (computes key keyed.Export) length_of self.old self.new out.old out.new result }
    {
        self.compute(key, KeyedCall::Export, out)
    }

    /// Writes the hash of a message, and gives its length. `BufferTooSmall` without room for it.
    pub fn hash_compute(&mut self, alg: Alg, input: &[u8], out: &mut [u8]) -> Reply<usize>
        ensures { Answers (hashes (hash_calls.Compute alg input.entry)) length_of self.old self.new out.old out.new result }
    {
        let call = HashCall::Compute { alg, input };
        self.ask(&Call::OnStore(StoreCall::Hash(call)), out)
    }

    /// Compares the hash of a message with the one expected. `InvalidSignature` where they differ, in length or bytes.
    pub fn hash_compare(&mut self, alg: Alg, input: &[u8], hash: &[u8]) -> Reply<()>
        ensures { Answers (hashes (hash_calls.Compare alg input.entry hash.entry)) nothing self.old self.new [] [] result }
    {
        self.tell(&Call::OnStore(StoreCall::Hash(HashCall::Compare { alg, input, hash })))
    }

    /// Writes the MAC of a message, and gives its length. `NotPermitted` where the key's policy doesn't permit it.
    pub fn mac_compute(
        &mut self,
        key: KeyId,
        alg: Alg,
        input: &[u8],
        out: &mut [u8],
    ) -> Reply<usize>
        ensures { Answers (computes key (keyed.MacCompute alg input.entry)) length_of self.old self.new out.old out.new result }
    {
        self.compute(key, KeyedCall::MacCompute { alg, input }, out)
    }

    /// Compares the MAC of a message with the one expected. `InvalidSignature` where they differ, in length or bytes.
    pub fn mac_verify(&mut self, key: KeyId, alg: Alg, input: &[u8], mac: &[u8]) -> Reply<()>
        ensures { Answers (computes key (keyed.MacVerify alg input.entry mac.entry)) nothing self.old self.new [] [] result }
    {
        let call = KeyedCall::MacVerify { alg, input, mac };
        self.tell(&Call::OnStore(StoreCall::compute(key, call)))
    }

    /// Writes a fresh initialisation vector, where the mode has one, and the ciphertext behind it, and gives their length.
    /// `InvalidArgument` where the mode doesn't permit the input's length.
    pub fn cipher_encrypt(
        &mut self,
        key: KeyId,
        alg: Alg,
        input: &[u8],
        out: &mut [u8],
    ) -> Reply<usize>
        ensures { Answers (computes key (keyed.CipherEncrypt alg input.entry)) length_of self.old self.new out.old out.new result }
    {
        self.compute(key, KeyedCall::CipherEncrypt { alg, input }, out)
    }

    /// Writes the plaintext of an input that begins with its initialisation vector, and gives its length. `InvalidPadding` where
    /// no padding ends it: then zeros stand in its place.
    pub fn cipher_decrypt(
        &mut self,
        key: KeyId,
        alg: Alg,
        input: &[u8],
        out: &mut [u8],
    ) -> Reply<usize>
        ensures { Answers (computes key (keyed.CipherDecrypt alg input.entry)) length_of self.old self.new out.old out.new result }
    {
        self.compute(key, KeyedCall::CipherDecrypt { alg, input }, out)
    }

    /// Writes a ciphertext and its tag behind it, and gives their length. `InvalidArgument` for a nonce or a length that the
    /// algorithm doesn't permit.
    pub fn aead_encrypt(
        &mut self,
        key: KeyId,
        alg: Alg,
        nonce: &[u8],
        ad: &[u8],
        input: &[u8],
        out: &mut [u8],
    ) -> Reply<usize>
        ensures { Answers (computes key (keyed.AeadEncrypt alg nonce.entry ad.entry input.entry)) length_of self.old self.new out.old out.new result }
    {
        let call = KeyedCall::AeadEncrypt {
            alg,
            nonce,
            ad,
            input,
        };
        self.compute(key, call, out)
    }

    /// Writes the plaintext of an input that ends with its tag, and gives its length. `InvalidSignature` where the tag isn't the
    /// one of nonce, associated data and text: then zeros stand in the plaintext's place.
    pub fn aead_decrypt(
        &mut self,
        key: KeyId,
        alg: Alg,
        nonce: &[u8],
        ad: &[u8],
        input: &[u8],
        out: &mut [u8],
    ) -> Reply<usize>
        ensures { Answers (computes key (keyed.AeadDecrypt alg nonce.entry ad.entry input.entry)) length_of self.old self.new out.old out.new result }
    {
        let call = KeyedCall::AeadDecrypt {
            alg,
            nonce,
            ad,
            input,
        };
        self.compute(key, call, out)
    }
}
