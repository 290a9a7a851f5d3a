//! The tables of a new vault, made one after another, with the index of its entries before the last.
ghost use Rattle.std.specs.Prelude.{◌≡◌};
ghost use Rattle.sqlite.specs.State.{Survives};
ghost use Rattle.sqlite.specs.Held.{state};
ghost use Rattle.vault_store_create.specs.Create.{HasFirst, HasBefore, HasOnce, HasAll, MovesInside, FailsForMemory};
ghost use Rattle.vault_store_edits.specs.Inside.{CommitsNothing};

use sqlite::{Alter, Error, Transaction};
use vault_audit_schema::{creation, index_creation};
use vault_base::refusal::Table;

/// Makes a table of a vault that registers contents which are kept outside, or doesn't, all those before it being there.
fn make_table<S: Alter>(
    tx: &mut Transaction<'_, S>,
    external: bool,
    table: Table,
) -> Result<usize, Error>
    ensures same_reference { tx.new.conn.ghost_name ≡ tx.old.conn.ghost_name }
    ensures made { MovesInside S.Store tx.old.conn.now tx.new.conn.now result (HasBefore external table) (HasOnce external table) }
    ensures memory { FailsForMemory S.Store tx.old.conn.now tx.new.conn.now result (HasBefore external table) }
    ensures kept { CommitsNothing S.Store tx.old.conn.now tx.new.conn.now result }
    ensures survives { Survives (state S.Store tx.old.conn.now) (state S.Store tx.new.conn.now) (λ _. ⊥) }
{
    tx.execute(creation(external, table), &[])
}

/// Makes the index of the entries, all tables but the last being there.
fn make_index<S: Alter>(tx: &mut Transaction<'_, S>, external: bool) -> Result<usize, Error>
    ensures same_reference { tx.new.conn.ghost_name ≡ tx.old.conn.ghost_name }
    ensures made { MovesInside S.Store tx.old.conn.now tx.new.conn.now result (HasFirst external 11) (HasBefore external Table.External) }
    ensures memory { FailsForMemory S.Store tx.old.conn.now tx.new.conn.now result (HasFirst external 11) }
    ensures kept { CommitsNothing S.Store tx.old.conn.now tx.new.conn.now result }
    ensures survives { Survives (state S.Store tx.old.conn.now) (state S.Store tx.new.conn.now) (λ _. ⊥) }
{
    tx.execute(index_creation(), &[])
}

fn make_first<S: Alter>(tx: &mut Transaction<'_, S>, external: bool) -> Result<(), Error>
    ensures same_reference { tx.new.conn.ghost_name ≡ tx.old.conn.ghost_name }
    ensures made { MovesInside S.Store tx.old.conn.now tx.new.conn.now result (HasFirst external 0) (HasFirst external 4) }
    ensures memory { FailsForMemory S.Store tx.old.conn.now tx.new.conn.now result (HasFirst external 0) }
    ensures kept { CommitsNothing S.Store tx.old.conn.now tx.new.conn.now result }
    ensures survives { Survives (state S.Store tx.old.conn.now) (state S.Store tx.new.conn.now) (λ _. ⊥) }
{
    make_table(tx, external, Table::Meta)?;
    make_table(tx, external, Table::Departments)?;
    make_table(tx, external, Table::Callers)?;
    make_table(tx, external, Table::Buckets)?;
    Ok(())
}

fn make_second<S: Alter>(tx: &mut Transaction<'_, S>, external: bool) -> Result<(), Error>
    ensures same_reference { tx.new.conn.ghost_name ≡ tx.old.conn.ghost_name }
    ensures made { MovesInside S.Store tx.old.conn.now tx.new.conn.now result (HasFirst external 4) (HasFirst external 8) }
    ensures memory { FailsForMemory S.Store tx.old.conn.now tx.new.conn.now result (HasFirst external 4) }
    ensures kept { CommitsNothing S.Store tx.old.conn.now tx.new.conn.now result }
    ensures survives { Survives (state S.Store tx.old.conn.now) (state S.Store tx.new.conn.now) (λ _. ⊥) }
{
    make_table(tx, external, Table::Rules)?;
    make_table(tx, external, Table::Entries)?;
    make_table(tx, external, Table::Contents)?;
    make_table(tx, external, Table::Settings)?;
    Ok(())
}

fn make_last<S: Alter>(tx: &mut Transaction<'_, S>, external: bool) -> Result<(), Error>
    ensures same_reference { tx.new.conn.ghost_name ≡ tx.old.conn.ghost_name }
    ensures made { MovesInside S.Store tx.old.conn.now tx.new.conn.now result (HasFirst external 8) (HasFirst external 11) }
    ensures memory { FailsForMemory S.Store tx.old.conn.now tx.new.conn.now result (HasFirst external 8) }
    ensures kept { CommitsNothing S.Store tx.old.conn.now tx.new.conn.now result }
    ensures survives { Survives (state S.Store tx.old.conn.now) (state S.Store tx.new.conn.now) (λ _. ⊥) }
{
    make_table(tx, external, Table::Intake)?;
    make_table(tx, external, Table::Heads)?;
    make_table(tx, external, Table::Tenures)?;
    Ok(())
}

/// Makes the index, and the table of the versions whose bytes are kept outside where there may be some.
fn make_rest<S: Alter>(tx: &mut Transaction<'_, S>, external: bool) -> Result<(), Error>
    ensures same_reference { tx.new.conn.ghost_name ≡ tx.old.conn.ghost_name }
    ensures made { MovesInside S.Store tx.old.conn.now tx.new.conn.now result (HasFirst external 11) (HasAll external) }
    ensures memory { FailsForMemory S.Store tx.old.conn.now tx.new.conn.now result (HasFirst external 11) }
    ensures kept { CommitsNothing S.Store tx.old.conn.now tx.new.conn.now result }
    ensures survives { Survives (state S.Store tx.old.conn.now) (state S.Store tx.new.conn.now) (λ _. ⊥) }
{
    make_index(tx, external)?;
    if external {
        make_table(tx, external, Table::External)?;
    }
    Ok(())
}

/// Makes all tables and the index in a store without any.
pub fn make_tables<S: Alter>(tx: &mut Transaction<'_, S>, external: bool) -> Result<(), Error>
    ensures same_reference { tx.new.conn.ghost_name ≡ tx.old.conn.ghost_name }
    ensures made { MovesInside S.Store tx.old.conn.now tx.new.conn.now result (HasFirst external 0) (HasAll external) }
    ensures memory { FailsForMemory S.Store tx.old.conn.now tx.new.conn.now result (HasFirst external 0) }
    ensures kept { CommitsNothing S.Store tx.old.conn.now tx.new.conn.now result }
    ensures survives { Survives (state S.Store tx.old.conn.now) (state S.Store tx.new.conn.now) (λ _. ⊥) }
{
    make_first(tx, external)?;
    make_second(tx, external)?;
    make_last(tx, external)?;
    make_rest(tx, external)
}
