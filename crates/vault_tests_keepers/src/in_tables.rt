//! Three commands that are carried out from tables to tables: their replies, and what the tables state then.
use crate::calls::{made, number};
use sqlite::{Alter, Connection};
use std::alloc::{AllocError, Global};
use std::test::Fail;
use vault_base::moment::Moment;
use vault_base::name::{CallerName, DeptName};
use vault_core_model::command::{AddDept, Command, Timed};
use vault_core_model::reply::{Answer, Reply};
use vault_store::in_tables::run_in_tables;
use vault_transcript::trial::compare;

/// The registrar adds the department `records`.
fn add_records(alloc: Global, at: &str) -> Option<Timed> {
    let at = Moment::read(at).ok()?;
    let who = CallerName::read(alloc, "registrar").ok()?.ok()?;
    let dept = DeptName::read(alloc, "records").ok()?.ok()?;
    Some(Timed {
        at,
        who,
        command: Command::AddDept(AddDept { dept }),
    })
}

/// The same department three times, the last of them at an earlier reading.
fn commands(alloc: Global) -> Option<Vec<Timed>> {
    let mut commands = Vec::new(alloc);
    for at in [
        "2024-01-15T09:00:00Z",
        "2024-01-15T09:01:00Z",
        "2024-01-15T08:59:59Z",
    ] {
        commands.push(add_records(alloc, at)?).ok()?;
    }
    Some(commands)
}

fn name_of(reply: &Reply) -> &'static str {
    match reply {
        Reply::Done(Answer::Nothing) => "done",
        Reply::Refused(refusal) => refusal.name(),
        _ => "another answer",
    }
}

/// The names of replies, each in a line of its own.
fn names_of(alloc: Global, replies: &[Reply]) -> Result<String, AllocError> {
    let mut names = String::new(alloc);
    for reply in replies {
        names.push_str(name_of(reply))?;
        names.push_str("\n")?;
    }
    Ok(names)
}

/// The names of the replies to these commands, or that of what refuses them all; and the connection.
fn names_in<S: Alter>(
    alloc: Global,
    conn: Connection<S>,
    commands: &[Timed],
) -> (Result<String, AllocError>, Connection<S>) {
    match run_in_tables(alloc, conn, commands) {
        Ok((replies, conn)) => {
            let names = names_of(alloc, replies.as_slice());
            drop(replies);
            (names, conn)
        }
        Err((refusal, conn)) => (String::from_str(alloc, refusal.name()), conn),
    }
}

/// Fails unless those are the replies, and the tables state one department and the last moment.
fn judge<S: Alter>(
    conn: &mut Connection<S>,
    names: Result<String, AllocError>,
) -> Result<(), Fail> {
    compare(
        "the replies",
        names?.as_str(),
        "done\nNameTaken\nClockBack\n",
    )?;
    let depts = number(conn, "SELECT count(*) FROM departments")?;
    let last = number(conn, "SELECT last FROM meta")?;
    if depts == 1 && last == 1_705_309_200 {
        return Ok(());
    }
    Err(Fail::new(format_args!("{depts} departments, and the last moment is {last}")))
}

fn carry_out_in<S: Alter>(
    alloc: Global,
    conn: Connection<S>,
    commands: &[Timed],
) -> (Result<(), Fail>, Connection<S>) {
    let mut conn = conn;
    if made(&mut conn).is_err() {
        return (Err(Fail::new("a vault can't be made")), conn);
    }
    let (names, conn) = names_in(alloc, conn, commands);
    let mut conn = conn;
    (judge(&mut conn, names), conn)
}

/// Carries the three commands out in tables in memory. This alone owns these.
fn carry_out(alloc: Global) -> Result<(), Fail> {
    let commands = commands(alloc).ok_or("three commands")?;
    let conn = Connection::open_in_memory(alloc)?;
    let (tried, conn) = carry_out_in(alloc, conn, commands.as_slice());
    drop(conn);
    drop(commands);
    tried
}

#[test]
fn commands_are_carried_out_one_after_another(rt: HostRuntime) -> Result<(), Fail> {
    carry_out(rt.alloc())
}
