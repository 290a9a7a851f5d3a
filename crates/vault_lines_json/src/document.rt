//! Bytes to a JSON value.
ghost use Rattle.serde_json.specs.View.{view};
ghost use Rattle.vault_values.specs.Fault.{Gives};
ghost use Rattle.vault_lines_json.specs.Document.{document_of};

use serde_json::Value;
use std::alloc::Global;
use vault_base::refusal::Refusal;
use vault_values::fault::LineFault;

/// The value that the bytes are as JSON (RFC 8259).
pub fn document(alloc: Global, bytes: &[u8]) -> Result<Value, LineFault>
    ensures { Gives view result (document_of bytes.now) }
{
    match Value::from_slice(alloc, bytes) {
        Ok(value) => Ok(value),
        Err(error) => {
            if error.is_memory() {
                Err(LineFault::Memory)
            } else {
                Err(LineFault::Refused(Refusal::MalformedBody))
            }
        }
    }
}
