//! Certificates of destruction.
ghost use Rattle.std.specs.Prelude.{◌≡◌, false};
ghost use Rattle.vault_core_model.specs.Leaves.{Leaves, LeavesSame};
ghost use Rattle.vault_core_model.specs.Halts.{ChecksAs, AnswersAs, is_device};
ghost use Rattle.vault_core_model.specs.Reads.{entry_of};
ghost use Rattle.vault_core_model.specs.Checks.{check};
ghost use Rattle.vault_core_model.specs.ListingOutcome as outcome;

use vault_base::moment::Moment;
use vault_base::name::{BucketName, CallerName, VersionId};
use vault_base::refusal::Refusal;
use vault_base::right::Right;
use vault_core_checks::caller::find_access;
use vault_core_model::command::Certificate;
use vault_core_model::halt::Halt;
use vault_core_model::keeper::Keeper;
use vault_core_model::records::Entry;
use vault_core_model::reply::Answer;

/// Certifies that a content version was removed: answers its entry, and the tenures of the departments that had it.
pub fn certificate<K: Keeper>(
    keeper: &mut K,
    at: Moment,
    who: &CallerName,
    command: &Certificate,
) -> Result<Answer, Halt>
    ensures meets { K.is_honest keeper.new → AnswersAs result (K.vault keeper.old) (K.vault keeper.new) (outcome.certificate (K.vault keeper.old) at who.now command.now) }
    ensures leaves { Leaves K.Kept keeper.old keeper.new (is_device result) }
{
    drop(find_access(keeper, at, who, &command.bucket, Right::Report)?);
    let entry = find_entry(keeper, &command.bucket, command.id)?;
    check_certifiable(&entry)?;
    let tenures = keeper.tenures(command.id)?;
    Ok(Answer::Certificate(entry, tenures))
}

/// The entry of that id, held or removed, that was ever in that bucket.
fn find_entry<K: Keeper>(keeper: &mut K, bucket: &BucketName, id: VersionId) -> Result<Entry, Halt>
    ensures found { K.is_honest keeper.new → ChecksAs result (outcome.entry_in bucket.now (entry_of (K.vault keeper.old) id)) }
    ensures leaves { LeavesSame K.Kept keeper.old keeper.new (is_device result) }
{
    let Some(entry) = keeper.entry(id)? else {
        return Err(Halt::Refused(Refusal::NoSuchVersion));
    };
    if entry.bucket == *bucket {
        Ok(entry)
    } else {
        drop(entry);
        Err(Halt::Refused(Refusal::NoSuchVersion))
    }
}

/// The entry is a removed content version.
fn check_certifiable(entry: &Entry) -> Result<(), Halt>
    ensures found { ChecksAs result (check (outcome.is_certifiable entry.now) Refusal.MethodNotAllowed) }
    ensures device { is_device result ≡ false }
{
    if entry.marker || entry.removal.is_none() {
        Err(Halt::Refused(Refusal::MethodNotAllowed))
    } else {
        Ok(())
    }
}
