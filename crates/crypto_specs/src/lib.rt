//! The definitions of the block cipher AES and of what is built on it, and their laws.
//!
//! What is proved:
//!
//! - its laws (docs/STANDARDS.md lists them): laws of the standards' definitions: decryption undoes encryption (AES, ECB,
//!   CBC, CTR), unpadding undoes padding, any cutting gives one key stream, GHASH's product is linear. The standards'
//!   examples are lemmas that the checker computes (`proofs/*Vectors`).
#![tactic(auto)]

ghost use Rattle.crypto_specs.specs.Laws.{DecryptionUndoesEncryption, EncryptionUndoesDecryption, FirstFactorIsLinear, SecondFactorIsLinear, EcbDecryptionUndoesEncryption, CbcDecryptionUndoesEncryption, CtrUndoesItself, AnyCuttingIsTheSame, CcmTextUndoesItself, GcmTextUndoesItself, PaddingFillsBlocks, UnpaddingUndoesPadding, OnlyPaddedTextsUnpad, AbsentSaltIsEmptyKey};

/// AES decryption undoes encryption on every block of 16 bytes, under every key (FIPS 197, 5.3).
pub fn decryption_undoes_encryption()
    ensures { DecryptionUndoesEncryption }
{}

/// AES encryption undoes decryption on every block of 16 bytes, under every key.
pub fn encryption_undoes_decryption()
    ensures { EncryptionUndoesDecryption }
{}

/// ECB decryption undoes encryption, over every cipher that has an inverse (SP 800-38A, 6.1).
#[tactic(auto, using(crate::proofs::ModeLaws::ecb_decryption_undoes_encryption))]
pub fn ecb_decryption_undoes_encryption()
    ensures { EcbDecryptionUndoesEncryption }
{}

/// CBC decryption undoes encryption, over every cipher that has an inverse (SP 800-38A, 6.2).
#[tactic(auto, using(crate::proofs::ModeLaws::cbc_decryption_undoes_encryption))]
pub fn cbc_decryption_undoes_encryption()
    ensures { CbcDecryptionUndoesEncryption }
{}

/// CTR undoes itself, at any length (SP 800-38A, 6.5).
#[tactic(auto, using(crate::proofs::ModeLaws::ctr_undoes_itself))]
pub fn ctr_undoes_itself()
    ensures { CtrUndoesItself }
{}

/// CTR of a text in pieces is CTR of the whole, however it is cut.
#[tactic(auto, using(crate::proofs::ModeLaws::any_cutting_is_the_same))]
pub fn any_cutting_is_the_same()
    ensures { AnyCuttingIsTheSame }
{}

/// The text of CCM undoes itself, under every nonce of 7 to 13 bytes (SP 800-38C, 6.1 and 6.2).
#[tactic(auto, using(crate::proofs::ModeLaws::ccm_text_undoes_itself))]
pub fn ccm_text_undoes_itself()
    ensures { CcmTextUndoesItself }
{}

/// The text of GCM undoes itself, under every nonce (SP 800-38D, 7.1 and 7.2).
#[tactic(auto, using(crate::proofs::ModeLaws::gcm_text_undoes_itself))]
pub fn gcm_text_undoes_itself()
    ensures { GcmTextUndoesItself }
{}

/// Padding adds 1 to 16 bytes and fills whole blocks (RFC 5652, 6.3).
pub fn padding_fills_blocks()
    ensures { PaddingFillsBlocks }
{}

/// Unpadding undoes padding, and of the texts of whole blocks it accepts padded messages alone.
#[tactic(auto, using(crate::proofs::PaddingLaws::unpadding_undoes_padding, crate::proofs::PaddingLaws::only_padded_texts_unpad))]
pub fn unpadding_undoes_padding()
    ensures undone { UnpaddingUndoesPadding }
    ensures only { OnlyPaddedTextsUnpad }
{}

/// The product of blocks in GHASH is linear in each factor (SP 800-38D, 6.3).
pub fn block_product_is_linear()
    ensures first { FirstFactorIsLinear }
    ensures second { SecondFactorIsLinear }
{}

/// HKDF's extraction without a salt is HMAC under the empty key (RFC 5869, 2.2).
#[tactic(auto, using(crate::proofs::HkdfLaws::absent_salt_is_empty_key))]
pub fn absent_salt_is_empty_key()
    ensures { AbsentSaltIsEmptyKey }
{}
