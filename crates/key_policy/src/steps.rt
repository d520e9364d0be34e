//! The steps of a key derivation, by number (PSA Certified Crypto API 1.2, section 10.6).

/// HKDF's secret.
pub const SECRET: u16 = 0x101;

/// PBKDF2's password.
pub const PASSWORD: u16 = 0x102;

pub const SALT: u16 = 0x202;

/// HKDF's info.
pub const INFO: u16 = 0x203;

/// PBKDF2's cost.
pub const COST: u16 = 0x205;
