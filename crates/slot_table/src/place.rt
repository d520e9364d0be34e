//! One slot, in two parts: its state, and the key with its readers.
ghost use Rattle.std.specs.Prelude.{◌≡◌, ◌<◌, ◌≤◌, ◌-◌, ◌+◌, ◌^◌, length, true, IfOk};
ghost use Rattle.secret_bytes.specs.Buffer.{buffer_of};
ghost use Rattle.slot_states.specs.{Changes.may_change, declared.SlotState.TheVariants.Empty};
ghost use Rattle.slot_table.specs.{Slots.is_empty_state, Slots.is_full, Slots.is_pending, Slots.is_idle, Slots.is_last, Rows.empty_head, Rows.no_key, Rows.slot_of};

use key_attributes::Attributes;
use psa_status::Memory;
use secret_bytes::Secret;
use slot_states::SlotState;
use std::alloc::Global;

/// The state of a slot, apart from its key.
#[derive(Clone, Copy, Drop)]
pub struct Head {
    pub state: SlotState,
}

impl Head {
    /// That of an empty slot.
    pub fn empty() -> Head
        ensures { result ≡ empty_head }
    {
        Head {
            state: SlotState::Empty,
        }
    }

    /// Whether the slot is empty.
    pub fn is_empty(&self) -> bool
        ensures { result ≡ is_empty_state self.now.state }
    {
        matches!(self.state, SlotState::Empty)
    }

    /// Whether the slot has a key that can be used.
    pub fn is_full(&self) -> bool
        ensures { result ≡ is_full self.now.state }
    {
        matches!(self.state, SlotState::Full)
    }

    /// Whether the slot's key is destroyed and still read.
    pub fn is_pending(&self) -> bool
        ensures { result ≡ is_pending self.now.state }
    {
        matches!(self.state, SlotState::Pending)
    }

    /// Goes on in another state, as it may where the key has so many readers.
    pub fn change(&mut self, to: SlotState, _readers: u32)
        requires { may_change self.old.state to _readers ≡ true }
        ensures { self.new ≡ record self.old { state = to } }
    {
        self.state = to;
    }

    /// Becomes that of an empty slot, as it may where the key has so many readers.
    pub fn wipe(&mut self, _readers: u32)
        requires { may_change self.old.state Empty _readers ≡ true }
        ensures { self.new ≡ empty_head }
    {
        *self = Head::empty();
    }
}

/// The key of a slot, with the number of its readers. No two stand in one line of a processor's cache.
#[derive(Drop)]
pub struct Stored {
    pub readers: u32,
    pub creation: u64,
    pub attributes: Attributes,
    pub buffer: Secret,
    // Unused: it parts the key from the next one.
    pub apart: [u64; 9],
}

impl Stored {
    /// No key; `Memory` where there is no room for the buffer.
    pub fn empty(alloc: Global) -> Result<Stored, Memory>
        ensures { IfOk result (λ key. key ≡ no_key) }
    {
        let buffer = Secret::new(alloc)?;
        Ok(Stored {
            readers: 0,
            creation: 0,
            attributes: Attributes::NONE,
            buffer,
            apart: [0; 9],
        })
    }

    /// Takes a new key in, which nobody reads.
    pub fn fill(&mut self, creation: u64, attributes: &Attributes, bytes: &[u8])
        requires { length bytes.now ≤ 1024 }
        ensures { self.new ≡ record { readers = 0; creation = creation; attributes = attributes.now; buffer = buffer_of bytes.now; apart = self.old.apart } }
    {
        self.readers = 0;
        self.creation = creation;
        self.attributes = *attributes;
        self.buffer.fill_from(bytes);
    }

    /// Forgets the key: all 1,024 bytes are zeros.
    pub fn wipe(&mut self)
        ensures { self.new ≡ record no_key { apart = self.old.apart } }
    {
        self.readers = 0;
        self.creation = 0;
        self.attributes = Attributes::NONE;
        self.buffer.wipe();
    }
}

/// Whether a slot of these parts has a persistent key that nobody reads.
pub fn is_idle(head: &Head, key: &Stored) -> bool
    ensures { result ≡ is_idle (slot_of head.now key.now) }
{
    head.is_full() && key.attributes.lifetime.0 & 0xff == 1 && key.readers == 0
}

/// Whether the key of a slot of these parts is destroyed and just one still reads it.
pub fn is_last(head: &Head, key: &Stored) -> bool
    ensures { result ≡ is_last (slot_of head.now key.now) }
{
    head.is_pending() && key.readers == 1
}
