//! One row of a list.
ghost use Rattle.std.specs.Prelude.{◌≡◌, ◌≢◌, ◌≤◌, false, IfOk, IfErr, OnErr, option_map};
ghost use Rattle.csv.specs.Records.{fields_of};
ghost use Rattle.vault_core_model.specs.Leaves.{Leaves, RoseOrIsFull};
ghost use Rattle.vault_core_model.specs.Halts.{ChecksAs, is_device_reply};
ghost use Rattle.vault_core_model.specs.declared.command.Command.TheVariants.{Intake as AsIntake};
ghost use Rattle.vault_core_model.specs.declared.halt.Fault.TheVariants as faults;
ghost use Rattle.vault_core_model.specs.declared.halt.Halt.TheVariants as halts;
ghost use Rattle.vault_core_model.specs.Step.{IsStep, Reached};
ghost use Rattle.vault_files_intake.specs.Batches.{AnswersLine};
ghost use Rattle.vault_files_intake.specs.Left.{LeavesBoth};
ghost use Rattle.vault_files_intake.specs.TakenIn as spec;
ghost use Rattle.vault_files_intake.specs.Row.{row_of};

use crate::batch::{Batch, Line};
use crate::folder::Folder;
use crate::row::{Row, read_row};
use csv::ByteRecord;
use std::alloc::{AllocError, Global};
use vault_base::content::{Bytes, Content};
use vault_base::limits::MOST_CONTENT;
use vault_base::moment::Moment;
use vault_base::name::{BatchName, BucketName, CallerName};
use vault_base::refusal::Refusal;
use vault_core::step::step;
use vault_core_model::command::{Command, Intake, Put};
use vault_core_model::halt::{Fault, Halt};
use vault_core_model::keeper::Keeper;
use vault_core_model::reply::Reply;
use vault_values::fault::LineFault;

/// What a record asks for.
fn row(alloc: Global, cells: &ByteRecord) -> Result<Row, Halt>
    ensures value { ChecksAs result (row_of (fields_of cells.now)) }
    ensures device { result ≢ Err (halts.Fault faults.Device) }
{
    match read_row(alloc, cells) {
        Ok(row) => Ok(row),
        Err(LineFault::Memory) => Err(Halt::Fault(Fault::Memory)),
        Err(LineFault::Refused(refusal)) => Err(Halt::Refused(refusal)),
    }
}

/// The content of a file, where there is such a file, and it is small enough.
#[tactic(auto, unfolding(crate::specs::TakenIn::content_of))]
fn content(found: Option<Vec<u8>>) -> Result<Content, Halt>
    ensures value { ChecksAs result (spec.content_of (option_map (λ f. f.items) found)) }
    ensures device { result ≢ Err (halts.Fault faults.Device) }
{
    let Some(bytes) = found else {
        return Err(Halt::Refused(Refusal::InvalidArgument));
    };
    if bytes.len() > MOST_CONTENT {
        return Err(Halt::Refused(Refusal::EntityTooLarge));
    }
    Ok(Content::Inside(Bytes::new(bytes)))
}

/// The command of a row with that content.
fn intake(
    bucket: &BucketName,
    batch: &BatchName,
    line: u32,
    row: Row,
    content: Content,
) -> Result<Intake, AllocError>
    ensures { IfOk result (λ c. c ≡ spec.intake_of bucket.now batch.now line row content) }
{
    let Row {
        file: _,
        key,
        retention,
        hold,
    } = row;
    Ok(Intake {
        batch: batch.clone()?,
        line,
        put: Put {
            bucket: bucket.clone()?,
            key,
            content,
            retention,
            hold,
        },
    })
}

/// The command of a record, with the content of the file that it names.
#[tactic(auto, using(crate::proofs::Commands::row_failed, crate::proofs::Commands::content_failed, crate::proofs::Commands::command_made))]
fn command<F: Folder>(
    alloc: Global,
    bucket: &BucketName,
    batch: &BatchName,
    line: u32,
    cells: &ByteRecord,
    folder: &mut F,
) -> Result<Intake, Halt>
    ensures asked { spec.Asks (F.files folder.old) bucket.now batch.now line (fields_of cells.now) result }
    ensures files { F.files folder.new ≡ F.files folder.old }
    ensures counted_there { F.count folder.old ≤ F.count folder.new }
    ensures device { result ≡ Err (halts.Fault faults.Device) → RoseOrIsFull (F.count folder.old) (F.count folder.new) }
{
    let row = row(alloc, cells)?;
    let found = folder.read(&row.file)?;
    let content = content(found)?;
    Ok(intake(bucket, batch, line, row, content)?)
}

/// A reply that reports out of memory or a failing device is a fault.
fn settled(reply: Reply) -> Result<Reply, Fault>
    ensures ok { IfOk result (λ r. (r ≡ reply) × (spec.is_fault_reply r ≡ false)) }
    ensures err { IfErr result (λ f. reply ≡ spec.fault_reply f) }
    ensures reported { spec.reports_device result ≡ is_device_reply reply }
{
    match reply {
        Reply::Done(answer) => Ok(Reply::Done(answer)),
        Reply::Stopped(changes, stop) => Ok(Reply::Stopped(changes, stop)),
        Reply::Refused(Refusal::Memory) => Err(Fault::Memory),
        Reply::Refused(Refusal::Device) => Err(Fault::Device),
        Reply::Refused(refusal) => Ok(Reply::Refused(refusal)),
    }
}

/// Carries out the command of a row.
fn carried_out<K: Keeper>(
    alloc: Global,
    keeper: &mut K,
    at: Moment,
    who: &CallerName,
    intake: Intake,
) -> Result<Reply, Fault>
    ensures ok { K.is_honest keeper.new → IfOk result (λ reply. (spec.is_fault_reply reply ≡ false) × IsStep (K.vault keeper.old) at who.now (AsIntake intake) reply (K.vault keeper.new)) }
    ensures err { K.is_honest keeper.new → OnErr result (K.vault keeper.new ≡ K.vault keeper.old) }
    ensures reached { K.is_honest keeper.new → Reached (K.vault keeper.old) → Reached (K.vault keeper.new) }
    ensures leaves { Leaves K.Kept keeper.old keeper.new (spec.reports_device result) }
{
    let command = Command::Intake(intake);
    let reply = step(alloc, keeper, at, who, &command);
    drop(command);
    settled(reply)
}

/// Takes in the file of a row. A fault of the row is its reply.
#[tactic(auto, using(vault_core_model::proofs::Counts::rose, vault_core_model::proofs::Counts::stays, vault_core_model::proofs::Counts::no_less))]
pub(crate) fn take_row<K: Keeper, F: Folder>(
    alloc: Global,
    keeper: &mut K,
    batch: &Batch<'_>,
    line: &Line<'_>,
    folder: &mut F,
) -> Result<Reply, Fault>
    ensures ok { K.is_honest keeper.new → IfOk result (λ reply. AnswersLine (F.files folder.old) batch.now line.now (K.vault keeper.old) reply (K.vault keeper.new)) }
    ensures err { K.is_honest keeper.new → OnErr result (K.vault keeper.new ≡ K.vault keeper.old) }
    ensures reached { K.is_honest keeper.new → Reached (K.vault keeper.old) → Reached (K.vault keeper.new) }
    ensures files { F.files folder.new ≡ F.files folder.old }
    ensures leaves { LeavesBoth K.Kept keeper.old keeper.new F.Folder folder.old folder.new (result ≡ Err Fault.Device) (spec.reports_device result) }
{
    match command(
        alloc,
        batch.bucket,
        batch.name,
        line.number,
        line.cells,
        folder,
    ) {
        Ok(intake) => carried_out(alloc, keeper, batch.at, batch.who, intake),
        Err(Halt::Refused(refusal)) => Ok(Reply::Refused(refusal)),
        Err(Halt::Fault(fault)) => Err(fault),
    }
}
