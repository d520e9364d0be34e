//! The program of the key store: it answers a script of calls by one reply line a call.
//!
//! What is proved:
//!
//! - `End::status`; `store_file`, `EndsUnopened`; what `without_keys` and `with_element` require: the program's status is
//!   its end's: that of the run, or 6 for `NotOpened`. Where `store_file` gives no file, the file is refused, or the words
//!   are no command (`Usage`), or are one and memory ran out; its secure element has no key at first, and each of its
//!   rules stands alone under its label.
#![tactic(auto)]

mod opening;
mod store;

ghost use Rattle.std.specs.Prelude.{◌≡◌};
ghost use Rattle.psa_host.specs.Program.{end_status};

use opening::Refusal;
use psa_command::Exit;
use std::io::{self, ErrorKind};
use std::os::fd::{AsRawFd, IntoRawFd};
use std::process::ExitCode;
use std::sync::Wait;
use std::thread::Threads;
use std::{env, fs};
use store::run_store;

const USAGE: &str =
    "usage: psa_host STORE (run [--workers N] [--seed HEX64] [--rules LABELS] | generate N)";

const HELP: &str = "\
usage: psa_host STORE (run [--workers N] [--seed HEX64] [--rules LABELS] | generate N)

A key store and symmetric cryptography service with the behaviour of the PSA
Certified Crypto API. STORE is the file of its persistent keys, a regular file or
a link to one. Where nothing is there it is made, with mode 600: its owner alone
can read it. One run has it at a time; another one is refused, and doesn't wait.

  run           answers the script on standard input by one reply line a call
    --workers N     run the sessions on N threads, 1 to 16; default 1
    --seed HEX64    the seed of all random bytes, 64 hex digits; default zeros
    --rules LABELS  admission rules for new keys, joined by commas; default none:
                    no-export  they lose the permission to be exported
                    no-copy    they lose the permission to be copied
                    no-ecb     none for AES in ECB mode
                    aes256     no AES keys but those of 256 bits
  generate N    runs N lines that it makes itself, 1 to 20000, by one worker, and
                prints how many calls succeeded, and a digest of the replies
  --help, --version   as the only word: this text, or the version

An option is two words, or one word as in --workers=4. Generated keys,
initialisation vectors and nonces come from the seed.

+----------------------------------------------------------------------------+
| A seed is for one run. Runs with one seed repeat initialisation vectors    |
| and nonces, and runs without --seed all have the same. Two texts that are  |
| encrypted so under one persistent key can be read without it (CTR, GCM and |
| CCM). Where STORE keeps keys, give each run a fresh seed:                  |
|                                                                            |
|     --seed $(od -An -N32 -tx1 /dev/urandom | tr -d ' \\n')                  |
+----------------------------------------------------------------------------+

examples:
  psa_host keys.store run --seed $(od -An -N32 -tx1 /dev/urandom | tr -d ' \\n') \\
    < script.psa
  psa_host keys.store run --seed $(od -An -N32 -tx1 /dev/urandom | tr -d ' \\n') \\
    --workers 4 --rules no-export,aes256 < script.psa

The status is 0 where every call was answered, which may have been by a refusal:
the third word of a reply line says whether its call succeeded. It is 1 for words
that aren't these, 2 for a script that isn't one, 3 and 4 where input or output
failed, 5 for a file that is no store or a damaged one, 6 where it isn't opened, as
a second line then says, or can't be read, 7 without memory, 8 where the script
states owners and one has more than 128 keys in the store.";

const VERSION: &str = "\
psa_host 0.1.0
Proved with rattle-kit-13f logic dac8208d650f15bf";

/// How the program ended: as a run did, or before it, since the store's file isn't opened.
#[derive(Drop)]
pub enum End {
    Run(Exit),
    NotOpened(Refusal),
}

impl End {
    /// The status that the program ends with.
    fn status(&self) -> u8
        ensures { result ≡ end_status self.now }
    {
        match self {
            End::Run(exit) => exit.status(),
            End::NotOpened(_) => 6,
        }
    }

    /// Prints the lines of this end to standard error. Where that can't be written, the status alone tells.
    fn tell(&self, rt: &HostRuntime) {
        let told = match self {
            End::Run(Exit::Done) => Ok(()),
            End::Run(Exit::Usage) => eprintln!(rt; "{USAGE}"),
            End::Run(Exit::Script(fault)) => eprintln!(rt; "{fault}"),
            End::Run(Exit::ReadFault) => eprintln!(rt; "read fault"),
            End::Run(Exit::WriteFault) => eprintln!(rt; "write fault"),
            End::Run(Exit::NotAStore) => eprintln!(rt; "not a store"),
            End::Run(Exit::DamagedCell { cell }) => eprintln!(rt; "damaged cell {cell}"),
            End::Run(Exit::DiskFault) => eprintln!(rt; "disk fault"),
            End::Run(Exit::Memory) => eprintln!(rt; "out of memory"),
            End::Run(Exit::OverQuota { owner }) => eprintln!(rt; "owner {owner} over quota"),
            End::NotOpened(refusal) => eprintln!(rt; "disk fault\n{refusal}"),
        };
        if told.is_err() {}
    }
}

/// Prints a text to standard output.
fn answer(rt: &HostRuntime, text: &str) -> End {
    match println!(rt; "{text}") {
        Ok(()) => End::Run(Exit::Done),
        Err(_) => End::Run(Exit::WriteFault),
    }
}

/// The words after the program's name.
fn arguments(rt: &HostRuntime) -> Result<Vec<String>, Exit> {
    let mut arguments = match env::args(rt) {
        Ok(arguments) => arguments,
        Err(error) => {
            return Err(if error.kind() == ErrorKind::OutOfMemory {
                Exit::Memory
            } else {
                Exit::Usage
            });
        }
    };
    let mut words = Vec::new(rt.alloc());
    for word in arguments.skip(1) {
        if words.push(word).is_err() {
            return Err(Exit::Memory);
        }
    }
    Ok(words)
}

/// Opens a directory in place of each standard stream that is closed, so that no file that is opened later
/// is taken for it. Reads and writes of a directory fail.
fn hold_closed_streams(rt: &HostRuntime) -> io::Result<()> {
    for _ in 0..3 {
        let held = fs::open(rt, "/")?;
        if held.as_raw_fd() > 2 {
            break;
        }
        held.into_raw_fd();
    }
    Ok(())
}

/// Runs the program by its words.
fn run<R: Threads + Wait + Sync>(rt: &HostRuntime, threads: &R) -> End {
    let arguments = match arguments(rt) {
        Ok(arguments) => arguments,
        Err(exit) => return End::Run(exit),
    };
    let mut words = Vec::new(rt.alloc());
    for word in &arguments {
        if words.push(word.as_str()).is_err() {
            return End::Run(Exit::Memory);
        }
    }
    match words.as_slice() {
        [] => End::Run(Exit::Usage),
        ["--help"] => answer(rt, HELP),
        ["--version"] => answer(rt, VERSION),
        [store, rest @ ..] => match hold_closed_streams(rt) {
            Ok(()) => run_store(rt, threads, store, rest),
            Err(error) => End::NotOpened(Refusal::System(error)),
        },
    }
}

fn main(rt: HostRuntime) -> ExitCode {
    let end = run(&rt, &rt);
    end.tell(&rt);
    ExitCode::from(end.status())
}
