// Owners, and the identifiers by which they name their keys.
ghost use Rattle.std.specs.Prelude.{◌≡◌, ◌≤◌, ◌<◌, MatchOption};
ghost use Rattle.owner_space.specs.Owners.{creator_of, inside, inside_created, is_own_volatile, outside, owners_in};

use key_attributes::KeyId;
use std::marker::Model;

/// One of sixteen owners. A contract sees its number, 0 to 15.
#[derive(Clone, Copy, Drop)]
pub struct Owner(u8);

impl Model for Owner {
    ghost use Rattle.std.specs.Prelude.{ℕ, ◌<◌};

    ghost Value = { ℕ };

    ghost view = { λ owner. owner.0 };

    ghost inverse = { λ n. record { 0 = n } };

    ghost invariant = { λ owner. owner.0 < 16 };
}

impl Owner {
    /// The first owner, 0.
    pub fn first() -> Owner
        ensures { result ≡ 0 }
    {
        Owner(0)
    }

    /// The owner of this number, which is 0 to 15.
    pub fn new(number: u8) -> Option<Owner>
        ensures { MatchOption result (15 < number) (λ owner. owner ≡ number) }
    {
        if number <= 15 {
            Some(Owner(number))
        } else {
            None
        }
    }

    pub fn number(self) -> u8
        ensures value { result ≡ self }
        ensures last { result ≤ 15 }
    {
        self.0
    }
}

/// The owners of callers 1 to 16. A contract sees their numbers, in the order of the callers.
#[derive(Drop)]
pub struct OwnerMap {
    owners: [Owner; 16],
}

impl Model for OwnerMap {
    ghost use Rattle.std.specs.Prelude.{List, ℕ};

    ghost Value = { List ℕ };

    ghost view = { λ map. map.owners };
}

// No key ever has this identifier.
const NO_KEY: KeyId = KeyId(0x7fff_ffff);

// So many identifiers of persistent keys are a range: an owner's are those of the range of its number.
const RANGE: u32 = 1 << 26;

// Below this are the identifiers of the ranges, and above it those of volatile keys.
const LOWEST_VOLATILE: u32 = 1 << 30;

// So many volatile keys a caller may create.
const VOLATILE_KEYS: u32 = 1 << 20;

// The caller that may have a volatile key of an identifier; of any other identifier it is no caller's number.
fn creator_of(key: KeyId) -> u32
    ensures { result ≡ creator_of key.0 }
{
    (key.0 / VOLATILE_KEYS).saturating_sub(LOWEST_VOLATILE / VOLATILE_KEYS)
}

impl OwnerMap {
    /// Gives caller s the owner at the place s - 1.
    pub fn new(owners: [Owner; 16]) -> OwnerMap
        ensures { result ≡ owners }
    {
        OwnerMap { owners }
    }

    fn owner(&self, caller: u8) -> Owner
        requires first { 1 ≤ caller }
        requires last { caller ≤ 16 }
        ensures { result ≡ owners_in self.now caller }
    {
        self.owners[usize::from(caller) - 1]
    }

    // Whether a caller of this owner may have a volatile key of this identifier.
    fn is_own_volatile(&self, owner: Owner, key: KeyId) -> bool
        ensures { result ≡ is_own_volatile (owners_in self.now) owner key.0 }
    {
        let creator = creator_of(key);
        1 <= creator && creator <= 16 && self.owner(creator as u8).number() == owner.number()
    }

    /// The identifier that the store has for one that a caller states for a key to be created: 1 to 3ffffff (hexadecimal)
    /// are in the owner's range, 0 stays 0, and for every other it is 7fffffff, which may not be stated.
    pub fn created(&self, caller: u8, key: KeyId) -> KeyId
        requires first { 1 ≤ caller }
        requires last { caller ≤ 16 }
        ensures { result.0 ≡ inside_created (owners_in self.now caller) key.0 }
    {
        let owner = u32::from(self.owner(caller).number());
        match key.0 {
            0 => key,
            number if number < RANGE => KeyId(owner * RANGE + number),
            _ => NO_KEY,
        }
    }

    /// The identifier that the store has for one by which a caller names a key: that of a volatile key of the owner's
    /// callers is the same, and every other is as for a key to be created. No key has 7fffffff.
    pub fn inner(&self, caller: u8, key: KeyId) -> KeyId
        requires first { 1 ≤ caller }
        requires last { caller ≤ 16 }
        ensures { result.0 ≡ inside (owners_in self.now) (owners_in self.now caller) key.0 }
    {
        if self.is_own_volatile(self.owner(caller), key) {
            key
        } else {
            self.created(caller, key)
        }
    }

    /// The identifier that a caller is told for one that the store has: of a persistent key the place within its range, and
    /// else the same.
    pub fn outer(&self, key: KeyId) -> KeyId
        ensures { result.0 ≡ outside key.0 }
    {
        if key.0 < LOWEST_VOLATILE {
            KeyId(key.0 % RANGE)
        } else {
            key
        }
    }
}
