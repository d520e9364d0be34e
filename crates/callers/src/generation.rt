// A key of random bytes.
ghost use Rattle.std.specs.Prelude.{◌≡◌, ◌≤◌, ℕ, List, Some, None, true, false, length, replicate};
ghost use Rattle.psa_status.specs.{Rows.first_row, declared.Status.TheVariants.InvalidArgument};
ghost use Rattle.random_streams.specs.RandomWords.{drawn_from, next_bytes};
ghost use Rattle.service_calls.specs.{Asked.creates, declared.store_calls.Creation.TheVariants.Generate};
ghost use Rattle.store_model.specs.{Creation.stated_bytes, Prelude.stated_bits_rows};
ghost use Rattle.callers.specs.Prelude.{IsReady, IsServedUnwritten, drawn_for};
ghost use Rattle.locked_store.specs.Prelude.{world};

use crate::caller::Caller;
use crate::gates::Gate;
use admission::Admission;
use disk_face::Disk;
use driver_dispatch::Devices;
use key_attributes::{Attributes, LONGEST_KEY};
use locked_store::SharedStore;
use psa_status::Status;
use service_calls::{Call, Output};
use std::sync::Wait;

// The most bytes that stated bits may say; no key is longer than LONGEST_KEY.
const MOST_STATED: usize = 8191;

// Whether the stated bits say a count of bytes.
fn says_bytes(attributes: &Attributes) -> bool
    ensures yes { result ≡ true → first_row (stated_bits_rows attributes.now) ≡ None }
    ensures no { result ≡ false → first_row (stated_bits_rows attributes.now) ≡ Some InvalidArgument }
{
    attributes.bits != 0 && attributes.bits % 8 == 0
}

// Clears a buffer of a key's bytes.
fn wipe(buffer: &mut [u8; LONGEST_KEY])
    ensures { buffer.new ≡ replicate 1024 0 }
{
    *buffer = [0; LONGEST_KEY];
}

impl<D: Disk, A: Devices, C: Admission> Caller<D, A, C> {
    /// Creates a key of the caller's next random bytes, as many as the stated bits say, and answers its rank beside its
    /// identifier. A refusal draws no random word. The output buffer that the call would have, of so many bytes, is left.
    pub fn generate<R: Wait, G: Gate>(
        &mut self,
        rt: &R,
        shared: &SharedStore<D, A, C>,
        gate: &G,
        call: &Call<'_>,
        room: usize,
        attributes: Attributes,
    ) -> (u64, Result<Output, Status>)
        requires ready { IsReady (world shared.now) 4 self.old }
        requires call { call.now ≡ creates (Generate attributes) }
        ensures ready { IsReady (world shared.now) 0 self.new }
        ensures answered { IsServedUnwritten (world shared.now) self.old self.new call.now room result }
        ensures spent { self.new.spent ≡ self.old.spent }
        ensures handles { self.new.handles ≡ self.old.handles }
    {
        if !says_bytes(&attributes) {
            let rank = shared.count(rt, &mut self.pass, call, room);
            return (rank, Err(Status::InvalidArgument));
        }
        let count = usize::from(attributes.bits / 8);
        let place = self.stream.place();
        if count > LONGEST_KEY {
            let bytes = &[0; MOST_STATED][..count];
            return self.create_random(rt, shared, gate, call, room, attributes, bytes, place);
        }
        let mut buffer = [0; LONGEST_KEY];
        self.stream.fill(&mut buffer[..count]);
        let bytes = &buffer[..count];
        let answer = self.create_random(rt, shared, gate, call, room, attributes, bytes, place);
        wipe(&mut buffer);
        answer
    }

    // Creates a key of these bytes, which were drawn from a place of the stream on, and gives the words back where there is
    // none. Of more bytes than a key has none is drawn: any will do for the refusal.
    fn create_random<R: Wait, G: Gate>(
        &mut self,
        rt: &R,
        shared: &SharedStore<D, A, C>,
        gate: &G,
        call: &Call<'_>,
        room: usize,
        attributes: Attributes,
        bytes: &[u8],
        place: u64,
    ) -> (u64, Result<Output, Status>)
        requires ready { IsReady (world shared.now) 4 (record self.old { stream = record self.old.stream { place = place } }) }
        requires call { call.now ≡ creates (Generate attributes) }
        requires whole { first_row (stated_bits_rows attributes) ≡ None }
        requires count { length bytes.now ≡ stated_bytes attributes }
        requires bytes { stated_bytes attributes ≤ 1024 → bytes.now ≡ next_bytes (record self.old.stream { place = place }) (stated_bytes attributes) }
        requires drawn { self.old.stream ≡ drawn_from (record self.old.stream { place = place }) (drawn_for attributes) }
        ensures ready { IsReady (world shared.now) 0 self.new }
        ensures answered { IsServedUnwritten (world shared.now) self.old self.new call.now room result }
        ensures spent { self.new.spent ≡ self.old.spent }
        ensures handles { self.new.handles ≡ self.old.handles }
    {
        let (rank, made) = self.create(rt, shared, gate, call, room, &attributes, bytes);
        match made {
            Ok(id) => (rank, Ok(Output::Identifier(id))),
            Err(why) => {
                self.stream.go_back(place);
                (rank, Err(why.status()))
            }
        }
    }
}
