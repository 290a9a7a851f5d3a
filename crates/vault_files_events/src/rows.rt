//! The records of an entry's events, one after another.
ghost use Rattle.std.specs.Prelude.{◌≡◌, [], ◌∷◌, ◌++◌, ◌+◌, List, OnOk, IfOk, filter, map};
ghost use Rattle.vault_core_evidence.specs.Events as events;
ghost use Rattle.vault_files_events.specs.Adds.{Adds, history_by};
ghost use Rattle.vault_files_events.specs.Counts.{counts};
ghost use Rattle.vault_files_events.specs.Asked.{asked_of, is_asked as is_asked_event, is_within};
ghost use Rattle.vault_files_events.specs.EventsText.{event_rows};

use crate::counted::Counted;
use crate::record::{admitted_row, locked_row, moved_row, removed_row};
use std::alloc::{AllocError, Global};
use vault_base::moment::Moment;
use vault_core_model::records::{Entry, Removal, Setting, Tenure};
use vault_files_texts::ExportFault;

/// The texts of records, and how many they are.
#[derive(Drop)]
pub(crate) struct Rows {
    pub(crate) text: Vec<u8>,
    pub(crate) counted: Counted,
}

/// Whether an event of that moment is asked for: where none is given, or it is before the one that is.
fn is_asked(before: &Option<Moment>, at: Moment) -> bool
    ensures { result ≡ is_within before.now at }
{
    match before {
        None => true,
        Some(before) => at < *before,
    }
}

/// Adds a record, which is an admission's or another event's.
fn push_row(rows: &mut Rows, row: &[u8], admitted: u64) -> Result<(), ExportFault>
    ensures text { OnOk result (rows.new.text.items ≡ rows.old.text.items ++ row.now) }
    ensures entries { OnOk result (rows.new.counted.entries ≡ rows.old.counted.entries + admitted) }
    ensures events { OnOk result (rows.new.counted.events ≡ rows.old.counted.events + 1) }
{
    let one = Counted {
        entries: admitted,
        events: 1,
    };
    let Some(counted) = rows.counted.and(one) else {
        return Err(ExportFault::Memory);
    };
    rows.text.extend_from_slice(row)?;
    rows.counted = counted;
    Ok(())
}

fn push_admission(
    alloc: Global,
    rows: &mut Rows,
    before: &Option<Moment>,
    entry: &Entry,
    tenures: &[Tenure],
) -> Result<(), ExportFault>
    ensures { OnOk result (Adds rows.old (filter (is_asked_event before.now) (events.admission_of (history_by entry.now [] tenures.now) ∷ [])) rows.new) }
{
    if !is_asked(before, entry.admitted) {
        return Ok(());
    }
    let row = admitted_row(alloc, entry, tenures)?;
    push_row(rows, row.as_slice(), 1)
}

fn push_setting(
    alloc: Global,
    rows: &mut Rows,
    before: &Option<Moment>,
    entry: &Entry,
    setting: &Setting,
) -> Result<(), ExportFault>
    ensures { OnOk result (Adds rows.old (filter (is_asked_event before.now) (events.setting_event (events.as_admitted entry.now) setting.now ∷ [])) rows.new) }
{
    if !is_asked(before, setting.at) {
        return Ok(());
    }
    let row = locked_row(alloc, entry, setting)?;
    push_row(rows, row.as_slice(), 0)
}

fn push_move(
    alloc: Global,
    rows: &mut Rows,
    before: &Option<Moment>,
    entry: &Entry,
    tenure: &Tenure,
) -> Result<(), ExportFault>
    ensures { OnOk result (Adds rows.old (filter (is_asked_event before.now) (events.move_event (events.as_admitted entry.now) tenure.now ∷ [])) rows.new) }
{
    if !is_asked(before, tenure.from) {
        return Ok(());
    }
    let row = moved_row(alloc, entry, tenure)?;
    push_row(rows, row.as_slice(), 0)
}

fn push_removal(
    alloc: Global,
    rows: &mut Rows,
    before: &Option<Moment>,
    entry: &Entry,
    removal: &Removal,
) -> Result<(), ExportFault>
    ensures { OnOk result (Adds rows.old (filter (is_asked_event before.now) (record { entry = events.as_admitted entry.now; at = removal.now.at; what = events.Gone removal.now } ∷ [])) rows.new) }
{
    if !is_asked(before, removal.at) {
        return Ok(());
    }
    let row = removed_row(alloc, entry, removal)?;
    push_row(rows, row.as_slice(), 0)
}

fn push_settings(
    alloc: Global,
    rows: &mut Rows,
    before: &Option<Moment>,
    entry: &Entry,
    settings: &[Setting],
) -> Result<(), ExportFault>
    ensures { OnOk result (Adds rows.old (filter (is_asked_event before.now) (map (events.setting_event (events.as_admitted entry.now)) settings.now)) rows.new) }
{
    for setting in settings {
        push_setting(alloc, rows, before, entry, setting)?;
    }
    Ok(())
}

fn push_each_move(
    alloc: Global,
    rows: &mut Rows,
    before: &Option<Moment>,
    entry: &Entry,
    moves: &[Tenure],
) -> Result<(), ExportFault>
    ensures { OnOk result (Adds rows.old (filter (is_asked_event before.now) (map (events.move_event (events.as_admitted entry.now)) moves.now)) rows.new) }
{
    for tenure in moves {
        push_move(alloc, rows, before, entry, tenure)?;
    }
    Ok(())
}

fn push_moves(
    alloc: Global,
    rows: &mut Rows,
    before: &Option<Moment>,
    entry: &Entry,
    tenures: &[Tenure],
) -> Result<(), ExportFault>
    ensures { OnOk result (Adds rows.old (filter (is_asked_event before.now) (map (events.move_event (events.as_admitted entry.now)) (events.later_tenures tenures.now))) rows.new) }
{
    match tenures {
        [] => Ok(()),
        [_, moves @ ..] => push_each_move(alloc, rows, before, entry, moves),
    }
}

fn push_end(
    alloc: Global,
    rows: &mut Rows,
    before: &Option<Moment>,
    entry: &Entry,
) -> Result<(), ExportFault>
    ensures { OnOk result (Adds rows.old (filter (is_asked_event before.now) (events.removal_events (events.as_admitted entry.now) entry.now.removal)) rows.new) }
{
    match entry.removal.as_ref() {
        None => Ok(()),
        Some(removal) => push_removal(alloc, rows, before, entry, removal),
    }
}

/// Adds the records of all that is asked for of an entry.
fn push_all(
    alloc: Global,
    rows: &mut Rows,
    before: &Option<Moment>,
    entry: &Entry,
    settings: &[Setting],
    tenures: &[Tenure],
) -> Result<(), ExportFault>
    ensures { OnOk result (Adds rows.old (asked_of before.now (history_by entry.now settings.now tenures.now)) rows.new) }
{
    push_admission(alloc, rows, before, entry, tenures)?;
    push_settings(alloc, rows, before, entry, settings)?;
    push_moves(alloc, rows, before, entry, tenures)?;
    push_end(alloc, rows, before, entry)
}

fn all_rows(
    alloc: Global,
    before: &Option<Moment>,
    entry: &Entry,
    settings: &[Setting],
    tenures: &[Tenure],
) -> Result<Rows, ExportFault>
    ensures text { IfOk result (λ rows. rows.text.items ≡ event_rows (events.events_asked_of before.now (history_by entry.now settings.now tenures.now))) }
    ensures count { IfOk result (λ rows. rows.counted ≡ counts (events.events_asked_of before.now (history_by entry.now settings.now tenures.now))) }
{
    let mut rows = Rows {
        text: Vec::new(alloc),
        counted: Counted::none(),
    };
    push_all(alloc, &mut rows, before, entry, settings, tenures)?;
    Ok(rows)
}

/// The records of what happened to an entry before a moment, or of all that did: its admission, its settings, its moves
/// and its removal. The error is out of memory.
pub(crate) fn rows_of(
    alloc: Global,
    before: &Option<Moment>,
    entry: &Entry,
    settings: &[Setting],
    tenures: &[Tenure],
) -> Result<Rows, AllocError>
    ensures text { IfOk result (λ rows. rows.text.items ≡ event_rows (events.events_asked_of before.now (history_by entry.now settings.now tenures.now))) }
    ensures count { IfOk result (λ rows. rows.counted ≡ counts (events.events_asked_of before.now (history_by entry.now settings.now tenures.now))) }
{
    match all_rows(alloc, before, entry, settings, tenures) {
        Ok(rows) => Ok(rows),
        Err(_) => Err(AllocError),
    }
}
