// The lock: STORE/lock, with the number of the process that changes the store.
ghost use Rattle.std.specs.Prelude.{◌≡◌, IfErr};
ghost use Rattle.desk.specs.declared.failure.Failure.TheVariants.{Fault};

use desk::{Ended, Failure, Host, place};
use std::io::{Error, ErrorKind, Write};
use words::{complain, failed};

// There is a lock already, or it can't be made.
fn refused(rt: &impl Host, folder: &[u8], error: Error) -> Failure
    ensures { result ≡ Fault }
{
    if error.kind() == ErrorKind::AlreadyExists {
        return complain(
            rt,
            folder,
            b"another process is changing this store; nothing was done. Try again when it is done; where there is none, remove the file lock in it",
        );
    }
    failed(rt, folder, error);
    complain(rt, folder, b"the store can't be locked; nothing was done")
}

// Writes the number of the process, and a line end; then the file is closed.
fn sign<F: Write + Drop>(mut file: F, process: u32) -> Result<(), Error> {
    let told = write!(file, "{process}");
    let _ = file.write_all(b"\n");
    told
}

// Takes the lock; where it can't, the reason has been told.
pub fn take(rt: &impl Host, folder: &[u8]) -> Ended
    ensures { IfErr result (λ why. why ≡ Fault) }
{
    let file = place::create(rt, folder, b"lock").map_err(|e| refused(rt, folder, e))?;
    sign(file, rt.process_id()).map_err(|e| {
        failed(rt, folder, e);
        complain(rt, folder, b"the store can't be locked; nothing was done");
        let _ = place::unlink(rt, folder, b"lock");
        Failure::Fault
    })
}

pub fn release(rt: &impl Host, folder: &[u8]) {
    let _ = place::unlink(rt, folder, b"lock");
}
