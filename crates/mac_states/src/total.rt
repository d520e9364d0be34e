// How many bytes a message has so far.
ghost use Rattle.std.specs.{Prelude.◌≡◌, Prelude.◌+◌, Prelude.◌≤◌, Prelude.OnOk, Result.result_err};
ghost use Rattle.psa_status.specs.Rows.{first_row};
ghost use Rattle.store_model.specs.Prelude.{total_limit, total_rows};

use key_policy::TOTAL_LIMIT;
use psa_status::Status;

/// The number of bytes that an operation's message has so far, which is limited.
#[derive(Drop)]
pub struct Total {
    bytes: usize,
    ghost limited: { bytes ≤ total_limit },
}

impl Total {
    pub fn none() -> Total
        ensures { result.bytes ≡ 0 }
    {
        Total { bytes: 0 }
    }

    /// Counts more bytes; `InvalidArgument` where the message would be longer than it may be.
    pub fn add(&mut self, more: usize) -> Result<(), Status>
        ensures refusal { result_err result ≡ first_row (total_rows self.old.bytes more) }
        ensures sum { OnOk result (self.new.bytes ≡ self.old.bytes + more) }
    {
        if more > TOTAL_LIMIT - self.bytes {
            return Err(Status::InvalidArgument);
        }
        self.bytes += more;
        Ok(())
    }
}
