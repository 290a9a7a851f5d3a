//! What is said of a vault, whatever keeps it.
use std::alloc::Global;
use std::test::Fail;
use vault_base::name::{BucketName, DeptName, VersionId};
use vault_core_evidence::walk::{Judged, lawful};
use vault_core_model::keeper::Keeper;
use vault_core_model::records::Tenure;
use vault_files::register::export_register;
use vault_files_events::export_events;
use vault_tally::row::Row;
use vault_transcript::transcript::replies;

/// Listings, reports, locks, contents, certificates and rules. Who works for the department that has `rolls` is said of
/// it, and the other is refused. No line changes anything.
const QUERIES: &str =
    r#"{"at":"2029-01-01T00:00:00Z","as":"ann","do":"list-versions","bucket":"docs"}
{"at":"2029-01-01T00:00:00Z","as":"ann","do":"list-versions","bucket":"safe"}
{"at":"2029-01-01T00:00:00Z","as":"cid","do":"list-versions","bucket":"rolls"}
{"at":"2029-01-01T00:00:00Z","as":"ann","do":"list-versions","bucket":"rolls"}
{"at":"2029-01-01T00:00:00Z","as":"ann","do":"report","dept":"records"}
{"at":"2029-01-01T00:00:00Z","as":"cid","do":"report","dept":"court"}
{"at":"2029-01-01T00:00:00Z","as":"ann","do":"get","bucket":"docs","key":"k","id":1}
{"at":"2029-01-01T00:00:00Z","as":"ann","do":"get","bucket":"docs","key":"k","id":5}
{"at":"2029-01-01T00:00:00Z","as":"ann","do":"get","bucket":"safe","key":"g","id":2}
{"at":"2029-01-01T00:00:00Z","as":"cid","do":"get","bucket":"rolls","key":"r"}
{"at":"2029-01-01T00:00:00Z","as":"ann","do":"get","bucket":"rolls","key":"r"}
{"at":"2029-01-01T00:00:00Z","as":"cid","do":"get","bucket":"rolls","key":"s","id":4}
{"at":"2029-01-01T00:00:00Z","as":"ann","do":"get","bucket":"rolls","key":"s","id":4}
{"at":"2029-01-01T00:00:00Z","as":"cid","do":"get","bucket":"rolls","key":"2024/a"}
{"at":"2029-01-01T00:00:00Z","as":"ann","do":"get","bucket":"rolls","key":"2024/a"}
{"at":"2029-01-01T00:00:00Z","as":"cid","do":"get","bucket":"rolls","key":"2024/b"}
{"at":"2029-01-01T00:00:00Z","as":"ann","do":"get","bucket":"rolls","key":"2024/b"}
{"at":"2029-01-01T00:00:00Z","as":"cid","do":"get-hold","bucket":"rolls","key":"r"}
{"at":"2029-01-01T00:00:00Z","as":"ann","do":"get-hold","bucket":"rolls","key":"r"}
{"at":"2029-01-01T00:00:00Z","as":"ann","do":"get-retention","bucket":"safe","key":"g"}
{"at":"2029-01-01T00:00:00Z","as":"ann","do":"certificate","bucket":"docs","id":1}
{"at":"2029-01-01T00:00:00Z","as":"ann","do":"certificate","bucket":"safe","id":2}
{"at":"2029-01-01T00:00:00Z","as":"cid","do":"certificate","bucket":"rolls","id":4}
{"at":"2029-01-01T00:00:00Z","as":"ann","do":"certificate","bucket":"rolls","id":4}
{"at":"2029-01-01T00:00:00Z","as":"ann","do":"get-rules","bucket":"docs"}
"#;

/// The last moment, the next id and the number of moves, the names of buckets, the sums of both departments, the tenures of
/// each version, the replies to the queries, the register of removals, the events of each entry, and that these are lawful.
pub fn stated<K: Keeper>(alloc: Global, keeper: &mut K) -> Result<String, Fail> {
    let mut text = String::new(alloc);
    push_seen(alloc, keeper, &mut text)?;
    Ok(text)
}

// Each part is pushed by a function of its own, so that no proof lets go of two texts.
fn push_seen<K: Keeper>(alloc: Global, keeper: &mut K, text: &mut String) -> Result<(), Fail> {
    push_counters(alloc, keeper, text)?;
    push_buckets(keeper, text)?;
    push_sums(alloc, keeper, "records", text)?;
    push_sums(alloc, keeper, "court", text)?;
    push_each_tenures(alloc, keeper, text)?;
    push_replies(alloc, keeper, text)?;
    push_register(alloc, keeper, text)?;
    push_events(alloc, keeper, text)?;
    push_lawful(alloc, keeper, text)
}

fn next_id<K: Keeper>(keeper: &mut K) -> Result<u64, Fail> {
    Ok(keeper.next_id().ok().ok_or("the next id isn't reported")?)
}

fn push_counters<K: Keeper>(alloc: Global, keeper: &mut K, text: &mut String) -> Result<(), Fail> {
    let last = keeper.last().ok().ok_or("the last moment isn't reported")?;
    let next = next_id(keeper)?;
    let moves = keeper
        .moves()
        .ok()
        .ok_or("the number of moves isn't reported")?;
    let seconds = last.secs();
    push(text, format!(in alloc; "{seconds} {next} {moves}\n")?)
}

/// The names of up to three buckets after `docs`.
fn push_buckets<K: Keeper>(keeper: &mut K, text: &mut String) -> Result<(), Fail> {
    let names = keeper
        .buckets("docs", 3)
        .ok()
        .ok_or("the buckets aren't reported")?;
    let pushed = push_names(names.as_slice(), text);
    drop(names);
    pushed
}

fn push_names(names: &[BucketName], text: &mut String) -> Result<(), Fail> {
    for name in names {
        text.push_str(name.as_str())?;
        text.push_str("\n")?;
    }
    Ok(())
}

/// Pushes a text, and lets go of it.
fn push(text: &mut String, more: String) -> Result<(), Fail> {
    text.push_str(more.as_str())?;
    Ok(())
}

fn row_of<K: Keeper>(alloc: Global, keeper: &mut K, dept: &str) -> Result<Row, Fail> {
    let dept = DeptName::read(alloc, dept)?.ok().ok_or("no name")?;
    Ok(keeper.totals(&dept).ok().ok_or("the sums aren't reported")?)
}

/// The seven sums of a department.
fn push_sums<K: Keeper>(
    alloc: Global,
    keeper: &mut K,
    dept: &str,
    text: &mut String,
) -> Result<(), Fail> {
    let row = row_of(alloc, keeper, dept)?;
    push(text, format!(in alloc; "{dept} {row:?}\n")?)
}

/// A line for each tenure of each version.
fn push_each_tenures<K: Keeper>(
    alloc: Global,
    keeper: &mut K,
    text: &mut String,
) -> Result<(), Fail> {
    for number in 1..next_id(keeper)? {
        push_tenures(alloc, keeper, number, text)?;
    }
    Ok(())
}

fn push_tenures<K: Keeper>(
    alloc: Global,
    keeper: &mut K,
    number: u64,
    text: &mut String,
) -> Result<(), Fail> {
    let id = u32::try_from(number)
        .ok()
        .and_then(VersionId::new)
        .ok_or("an id has another form")?;
    let tenures = keeper
        .tenures(id)
        .ok()
        .ok_or("the tenures aren't reported")?;
    let pushed = push_each(alloc, number, tenures.as_slice(), text);
    drop(tenures);
    pushed
}

fn push_each(
    alloc: Global,
    number: u64,
    tenures: &[Tenure],
    text: &mut String,
) -> Result<(), Fail> {
    for tenure in tenures {
        let dept = tenure.dept.as_str();
        let seconds = tenure.from.secs();
        let made = tenure.number;
        push(
            text,
            format!(in alloc; "{number} {dept} {seconds} {made}\n")?,
        )?;
    }
    Ok(())
}

fn push_replies<K: Keeper>(alloc: Global, keeper: &mut K, text: &mut String) -> Result<(), Fail> {
    push(text, replies(alloc, keeper, QUERIES.as_bytes())?)
}

fn register<K: Keeper>(alloc: Global, keeper: &mut K) -> Result<String, Fail> {
    let mut written = Vec::new(alloc);
    export_register(alloc, keeper, &mut written)?;
    Ok(String::from_utf8(written)?)
}

fn push_register<K: Keeper>(alloc: Global, keeper: &mut K, text: &mut String) -> Result<(), Fail> {
    push(text, register(alloc, keeper)?)
}

fn events<K: Keeper>(alloc: Global, keeper: &mut K) -> Result<String, Fail> {
    let mut written = Vec::new(alloc);
    export_events(alloc, keeper, &mut written, None)?;
    Ok(String::from_utf8(written)?)
}

fn push_events<K: Keeper>(alloc: Global, keeper: &mut K, text: &mut String) -> Result<(), Fail> {
    push(text, events(alloc, keeper)?)
}

/// Fails unless each setting and each removal keeps the rules.
fn push_lawful<K: Keeper>(alloc: Global, keeper: &mut K, text: &mut String) -> Result<(), Fail> {
    if !matches!(lawful(alloc, keeper), Ok(Judged { breach: None, .. })) {
        return Err(Fail::new("the vault isn't lawful"));
    }
    text.push_str("lawful\n")?;
    Ok(())
}

/// Fails unless the bytes that each department admitted and received are those it holds, those removed and those handed
/// over, and as many were received as were handed over.
pub fn is_conserved<K: Keeper>(alloc: Global, keeper: &mut K) -> Result<(), Fail> {
    let records = row_of(alloc, keeper, "records")?;
    let court = row_of(alloc, keeper, "court")?;
    let received = records.received.checked_add(court.received);
    let handed = records.handed.checked_add(court.handed);
    if is_balanced(&records) && is_balanced(&court) && received == handed {
        return Ok(());
    }
    Err(Fail::new("bytes were lost or made"))
}

fn is_balanced(row: &Row) -> bool {
    let came = row.admitted.checked_add(row.received);
    let went = row
        .held
        .checked_add(row.removed)
        .and_then(|sum| sum.checked_add(row.handed));
    came.is_some() && came == went
}
