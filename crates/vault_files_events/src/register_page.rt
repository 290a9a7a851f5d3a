//! A part of the register of removals: the records of the removed ones among some entries, by rising id.
ghost use Rattle.std.specs.Prelude.{◌≡◌, ◌≤◌, ◌-◌, ◌++◌, IfOk, OnOk, length, take, drop};
ghost use Rattle.vault_core_model.specs.Leaves.{ReadsAs};
ghost use Rattle.vault_files_events.specs.RegisterPage as spec;

use crate::page::{TextPage, header_if_first};
use std::alloc::{AllocError, Global};
use vault_base::content::Bytes;
use vault_base::name::VersionId;
use vault_core_evidence::parts::{count_entries, most_of, next_of};
use vault_core_model::halt::Fault;
use vault_core_model::keeper::Keeper;
use vault_core_model::records::Entry;
use vault_files_texts::register::{HEADER, row};

/// Adds the record of what was found of an entry; of one that is held nothing.
fn push_found(alloc: Global, text: &mut Vec<u8>, found: &Option<Entry>) -> Result<(), AllocError>
    ensures { OnOk result (text.new.items ≡ text.old.items ++ spec.row_found found.now) }
{
    let Some(entry) = found else {
        return Ok(());
    };
    let Ok(record) = row(alloc, entry) else {
        return Err(AllocError);
    };
    text.extend_from_slice(record.as_slice())?;
    Ok(())
}

/// Adds the records of the removed ones among the `most` entries after an id.
fn push_range<K: Keeper>(
    alloc: Global,
    keeper: &mut K,
    text: &mut Vec<u8>,
    after: u32,
    most: u32,
) -> Result<(), Fault>
    requires range { K.is_honest keeper.old → most ≤ length (K.vault keeper.old).histories - after }
    ensures ok { K.is_honest keeper.new → OnOk result (text.new.items ≡ text.old.items ++ spec.rows_in (take most (drop after (K.vault keeper.old).histories))) }
    ensures leaves { ReadsAs K.Kept keeper.old keeper.new result }
{
    for place in 0..most {
        let Some(number) = after.checked_add(place + 1) else {
            return Err(Fault::Memory);
        };
        let Some(id) = VersionId::new(number) else {
            return Err(Fault::Memory);
        };
        let found = keeper.entry(id)?;
        push_found(alloc, text, &found)?;
    }
    Ok(())
}

/// A part of the register of removals: the records of the removed ones among the entries after an id, of which it looks at
/// 1,000 at most, by rising id. The part after 0 is the first, and begins with the header.
///
/// The parts, each after the id that the one before it names, are together the register, where nothing is removed in
/// between. Each part is of the vault as it is then; a record that is in the register stays in it as it is.
///
/// `Memory` comes where room was refused, and `Device` where the vault's device failed, and there always. The vault is
/// never changed.
pub fn register_page<K: Keeper>(
    alloc: Global,
    keeper: &mut K,
    after: u32,
) -> Result<TextPage, Fault>
    ensures page { K.is_honest keeper.new → IfOk result (λ page. page ≡ spec.page_of after (K.vault keeper.old)) }
    ensures leaves { ReadsAs K.Kept keeper.old keeper.new result }
{
    let entries = count_entries(keeper)?;
    let mut text = header_if_first(alloc, HEADER, after)?;
    push_range(alloc, keeper, &mut text, after, most_of(entries, after))?;
    Ok(TextPage {
        text: Bytes::new(text),
        next: next_of(entries, after),
    })
}
