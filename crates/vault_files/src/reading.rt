//! Bytes read up to a limit.
ghost use Rattle.std.specs.Prelude.{◌≡◌, ◌↔◌, IfOk, IfSome, take};
ghost use Rattle.std.specs.IoError.{error_kind};

use std::alloc::Global;
use std::io::{self, ErrorKind, Read};
use vault_core_model::halt::Fault;

/// What an error of a device says: out of memory, or that the device failed.
pub(crate) fn fault_of(error: &io::Error) -> Fault
    ensures { (result ≡ Fault.Memory) ↔ (error_kind error.now ≡ ErrorKind.OutOfMemory) }
{
    if error.kind() == ErrorKind::OutOfMemory {
        Fault::Memory
    } else {
        Fault::Device
    }
}

/// The first bytes of a reader, n at most. What lies after them isn't read.
pub(crate) fn read_at_most<R: Read + Drop>(
    alloc: Global,
    reader: R,
    most: u64,
) -> Result<Vec<u8>, Fault>
    ensures { IfOk result (λ bytes. IfSome (R.remaining reader) (λ all. bytes.items ≡ take most all)) }
{
    let mut bytes = Vec::new(alloc);
    match reader.take(most).read_to_end(&mut bytes) {
        Ok(_) => Ok(bytes),
        Err(error) => Err(fault_of(&error)),
    }
}
