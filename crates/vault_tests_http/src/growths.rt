//! Each row's request, with ample memory and with a growth refused.
use crate::exchange::{Exchange, GO_ON, answer_whole};
use crate::rows::{Deed, Row, rows};
use crate::serving::{READING, serve};
use crate::vault::{Filled, stated};
use std::alloc::Global;
use std::test::Fail;
use vault_core_list::list_keeper::ListKeeper;
use vault_http::ServeFault;

/// How a request ended.
#[derive(Clone, Copy, Debug)]
enum Ending {
    /// With its answer.
    Answered,
    /// With the refusal Memory as its answer.
    Refused,
    /// With `Err(Memory)`, and no byte of an answer.
    Faulted,
}

/// A row, and a vault of its own.
#[derive(Drop)]
struct Case<K> {
    exchange: Exchange,
    keeper: K,
    ending: Ending,
}

impl<K: Filled> Case<K> {
    fn of(alloc: Global, row: &Row) -> Result<Case<K>, Fail> {
        let keeper = K::filled(alloc)?;
        Ok(Case {
            exchange: Exchange::of(alloc, row)?,
            keeper,
            ending: Ending::Answered,
        })
    }
}

fn push_case<K: Filled>(alloc: Global, cases: &mut Vec<Case<K>>, row: &Row) -> Result<(), Fail> {
    cases.push(Case::of(alloc, row)?)?;
    Ok(())
}

/// All that the test itself needs, so that after it only serving takes memory.
fn cases<K: Filled>(alloc: Global) -> Result<Vec<Case<K>>, Fail> {
    let mut cases = Vec::new(alloc);
    for row in rows() {
        push_case(alloc, &mut cases, row)?;
    }
    Ok(cases)
}

const REFUSED: &str =
    "HTTP/1.1 503 Service Unavailable\r\ndate: Mon, 15 Jan 2024 10:30:00 GMT\r\nconnection: close\r\ncontent-type: application/json\r\ncontent-length: 24\r\n\r\n{\"code\":\"Memory\",\"n\":22}";

/// The refusal Memory without its body, which is what HEAD gets.
const REFUSED_HEAD: &str =
    "HTTP/1.1 503 Service Unavailable\r\ndate: Mon, 15 Jan 2024 10:30:00 GMT\r\nconnection: close\r\ncontent-type: application/json\r\ncontent-length: 24\r\n\r\n";

/// The bytes after 100 Continue, if it was written.
fn after_go_on(written: &str) -> &str {
    written.strip_prefix(GO_ON).unwrap_or(written)
}

/// How a request ended, by what was written and answered. No other answer may stand in the place of an error.
fn ending_of(
    exchange: &Exchange,
    served: Result<(), ServeFault>,
    written: &[u8],
) -> Result<Ending, Fail> {
    let text = str::from_utf8(written)?;
    if served == Ok(()) && text == exchange.whole.as_str() {
        return Ok(Ending::Answered);
    }
    let last = after_go_on(text);
    if served == Ok(()) && (last == REFUSED || last == REFUSED_HEAD) {
        return Ok(Ending::Refused);
    }
    if served == Err(ServeFault::Memory) && last == "" {
        return Ok(Ending::Faulted);
    }
    Err(Fail::new(format_args!("{served:?}, {text}")))
}

/// Serves a case. The room for what is written is there.
fn serve_case<K: Filled>(
    alloc: Global,
    case: &mut Case<K>,
    written: &mut Vec<u8>,
) -> Result<(), Fail> {
    written.clear();
    let mut reader = case.exchange.request.as_bytes();
    let served = serve(alloc, &mut reader, written, &mut case.keeper, READING);
    case.ending = ending_of(&case.exchange, served, written.as_slice())?;
    Ok(())
}

/// Serves each case in turn. The room for what is written is there.
fn serve_cases<K: Filled>(
    alloc: Global,
    cases: &mut [Case<K>],
    written: &mut Vec<u8>,
) -> Result<(), Fail> {
    for case in cases.iter_mut() {
        serve_case(alloc, case, written)?;
    }
    Ok(())
}

/// What replies say of the vault before a request.
fn stated_before<K: Filled>(alloc: Global) -> Result<String, Fail> {
    let mut keeper = K::filled(alloc)?;
    stated(alloc, &mut keeper)
}

/// What replies say of the vault once a request was answered.
fn stated_after<K: Filled>(alloc: Global, exchange: &Exchange) -> Result<String, Fail> {
    let mut keeper = K::filled(alloc)?;
    answer_whole(alloc, &mut keeper, exchange)?;
    stated(alloc, &mut keeper)
}

/// The vault is as after the request; where the refusal was answered it is as before, and where nothing was
/// answered it is either of both.
fn is_promised(ending: Ending, left: &str, before: &str, after: &str) -> bool {
    match ending {
        Ending::Answered => left == after,
        Ending::Refused => left == before,
        Ending::Faulted => left == before || left == after,
    }
}

/// Whether the vault has the change of a request, where it makes one.
fn is_changed(deed: Deed, left: &str, before: &str) -> bool {
    deed == Deed::Made && left != before
}

fn compare_ending(rt: &HostRuntime, ending: Ending, is_changed: bool) -> Result<(), Fail> {
    let change = if is_changed {
        "the change is made"
    } else {
        "nothing is changed"
    };
    println!(rt; "{ending:?}, and {change}")?;
    Ok(())
}

/// Says how a request ended, where it wasn't answered, and whether the vault has its change.
fn report_troubled(rt: &HostRuntime, ending: Ending, is_changed: bool) -> Result<(), Fail> {
    match ending {
        Ending::Answered => Ok(()),
        _ => compare_ending(rt, ending, is_changed),
    }
}

fn judge<K: Filled>(rt: &HostRuntime, case: &mut Case<K>) -> Result<(), Fail> {
    let alloc = rt.alloc();
    let before = stated_before::<K>(alloc)?;
    let after = stated_after::<K>(alloc, &case.exchange)?;
    let request = case.exchange.request.as_str();
    if (before.as_str() == after.as_str()) == (case.exchange.deed == Deed::Made) {
        return Err(Fail::new(format_args!("{request} doesn't do what it should")));
    }
    let left = stated(alloc, &mut case.keeper)?;
    let is_changed = is_changed(case.exchange.deed, left.as_str(), before.as_str());
    report_troubled(rt, case.ending, is_changed)?;
    if is_promised(case.ending, left.as_str(), before.as_str(), after.as_str()) {
        return Ok(());
    }
    Err(Fail::new(format_args!("{request} leaves another vault")))
}

fn judge_each<K: Filled>(rt: &HostRuntime, cases: &mut [Case<K>]) -> Result<(), Fail> {
    for case in cases.iter_mut() {
        judge(rt, case)?;
    }
    Ok(())
}

fn judge_rows<K: Filled>(rt: &HostRuntime) -> Result<(), Fail> {
    let mut cases: Vec<Case<K>> = cases(rt.alloc())?;
    let mut written = Vec::with_capacity(rt.alloc(), 4096)?;
    println!(rt; "begun")?;
    serve_cases(rt.alloc(), cases.as_mut_slice(), &mut written)?;
    println!(rt; "served")?;
    judge_each(rt, cases.as_mut_slice())
}

/// Holds with ample memory, and with any one growth refused while a request is served: what `serve_one` says
/// in `ok` and `err`.
#[test]
fn a_refused_growth_is_no_other_answer(rt: HostRuntime) -> Result<(), Fail> {
    judge_rows::<ListKeeper>(&rt)
}
