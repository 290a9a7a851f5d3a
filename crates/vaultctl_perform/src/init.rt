//! A new vault in a file.
ghost use Rattle.std.specs.Prelude.{◌≡◌, Bool, OnOk, OnErr};
ghost use Rattle.sqlite.specs.Files.{file_state, over_files};
ghost use Rattle.sqlite.specs.State.{HasCleanDisk};
ghost use Rattle.vault_core_model.specs.Vault.{opening_of};
ghost use Rattle.vault_store.specs.Kept.{StandsFor};
ghost use Rattle.vault_store.specs.VaultOf.{vault_of};
ghost use Rattle.vaultctl_machine.specs.Closings.{Closes};
ghost use Rattle.vaultctl_perform.specs.Done.{IsMade, IsNew, IsUngiven};
ghost use Rattle.vaultctl_perform.specs.Status as spec;
ghost use Rattle.vaultctl_perform.specs.Status.{Ends};

use crate::messages::print_cause;
use sqlite::Start;
use std::io::Write;
use vaultctl_machine::open_error::OpenError;
use vaultctl_machine::vaults::{FileMachine, FileVault};

/// Closes a vault that was made just now.
fn close_new<A: Start, B: Start>(machine: &mut FileMachine<'_, A, B>, vault: FileVault<A>)
    ensures given { machine.new.given ≡ machine.old.given }
    ensures done { (external : Bool) → (HasCleanDisk (file_state vault.conn) → vault_of over_files vault ≡ opening_of external)
        → Closes machine.old.closed.items machine.new.closed.items (λ conn. HasCleanDisk (file_state conn) → ∥ StandsFor (file_state conn) (opening_of external) ∥₁) }
{
    drop(machine.close(vault));
}

/// Makes the vault in a file and closes it.
fn make<A: Start, B: Start>(
    machine: &mut FileMachine<'_, A, B>,
    file: &str,
    start: A,
    external: bool,
) -> Result<(), OpenError>
    ensures made { OnOk result (IsNew machine.old machine.new external) }
    ensures none { OnErr result (IsUngiven machine.old machine.new) }
{
    let vault = machine.make(file, start, external)?;
    close_new(machine, vault);
    Ok(())
}

/// Says why a vault wasn't made, and answers the status.
fn print_made<E: Write>(err: &mut E, made: Result<(), OpenError>) -> u8
    ensures { result ≡ spec.made_status made }
{
    match made {
        Ok(()) => 0,
        Err(cause) => print_cause(err, "init", cause),
    }
}

/// Makes a new vault in a file, which registers contents that are kept outside, or doesn't, and prints nothing.
pub fn init<A: Start, B: Start, E: Write>(
    machine: &mut FileMachine<'_, A, B>,
    file: &str,
    start: A,
    external: bool,
    err: &mut E,
) -> u8
    ensures performed { Ends result (λ outcome. IsMade machine.old machine.new external outcome) }
{
    let made = make(machine, file, start, external);
    print_made(err, made)
}
