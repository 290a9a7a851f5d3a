//! Each row's request, answered to writers that fail at each write, and to one that takes just what is written.
use crate::exchange::{Exchange, compare_deed};
use crate::rows::{Deed, rows};
use crate::serving::{READING, serve};
use crate::vault::{Filled, stated};
use std::alloc::Global;
use std::io::BufWriter;
use std::test::Fail;
use vault_core_list::list_keeper::ListKeeper;
use vault_core_model::keeper::Keeper;
use vault_failing::streams::FailingWriter;
use vault_http::ServeFault;

/// Where a writer fails.
#[derive(Clone, Copy, Debug)]
enum Full {
    /// After n writes.
    After(u64),
    /// At its first write, after a writer that holds back what it is handed.
    HeldBack,
}

fn writer_of(alloc: Global, writes_left: u64) -> FailingWriter {
    FailingWriter {
        written: Vec::new(alloc),
        writes_left,
    }
}

/// Serves bytes to a writer that takes n writes: what it took, and what that comes to.
fn serve_to<K: Keeper>(
    alloc: Global,
    keeper: &mut K,
    front: &[u8],
    writes: u64,
) -> Result<(String, Result<(), ServeFault>), Fail> {
    let mut reader = front;
    let mut writer = writer_of(alloc, writes);
    let served = serve(alloc, &mut reader, &mut writer, keeper, READING);
    Ok((String::from_utf8(writer.written)?, served))
}

/// Fails unless the writer takes what was to be written before its fault: what is reported.
fn serve_after<K: Keeper>(
    alloc: Global,
    keeper: &mut K,
    exchange: &Exchange,
    size: usize,
    writes: u64,
) -> Result<Result<(), ServeFault>, Fail> {
    let (written, served) = serve_to(alloc, keeper, exchange.front(size)?, writes)?;
    // Of a writer that takes nothing, nothing is reported, however much has come.
    let come = if writes == 0 { 0 } else { size };
    exchange.compare_replies(come, written.as_str())?;
    Ok(served)
}

/// What is reported where what is held back is handed on, before a request counts as served.
fn serve_held_back<K: Keeper>(
    alloc: Global,
    keeper: &mut K,
    front: &[u8],
) -> Result<Result<(), ServeFault>, Fail> {
    let mut reader = front;
    let mut writer = BufWriter::with_capacity(alloc, 65_536, writer_of(alloc, 0))?;
    Ok(serve(alloc, &mut reader, &mut writer, keeper, READING))
}

fn serve_stopped<K: Keeper>(
    alloc: Global,
    keeper: &mut K,
    exchange: &Exchange,
    size: usize,
    full: Full,
) -> Result<Result<(), ServeFault>, Fail> {
    match full {
        Full::After(writes) => serve_after(alloc, keeper, exchange, size, writes),
        Full::HeldBack => serve_held_back(alloc, keeper, exchange.front(size)?),
    }
}

/// Fails unless the writer's fault is reported, with what was to be written before it, and the vault is as it was, or as
/// the answer that wasn't written says.
fn refuse_write<K: Filled>(
    alloc: Global,
    exchange: &Exchange,
    size: usize,
    full: Full,
    is_made: bool,
) -> Result<(), Fail> {
    let mut keeper = K::filled(alloc)?;
    let before = stated(alloc, &mut keeper)?;
    let served = serve_stopped(alloc, &mut keeper, exchange, size, full)?;
    let after = stated(alloc, &mut keeper)?;
    if served == Err(ServeFault::Write) && (after.as_str() != before.as_str()) == is_made {
        return Ok(());
    }
    let request = exchange.request.as_str();
    Err(Fail::new(format_args!("{size} bytes of {request}, {full:?}: {served:?}")))
}

/// The whole request: each write fails in turn. Where 100 Continue fails no step is made, else it is.
fn refuse_each_write<K: Filled>(alloc: Global, exchange: &Exchange) -> Result<(), Fail> {
    let size = exchange.request.len();
    let is_made = exchange.deed == Deed::Made;
    let is_made_first = is_made && !exchange.waits;
    refuse_write::<K>(alloc, exchange, size, Full::After(0), is_made_first)?;
    refuse_write::<K>(alloc, exchange, size, Full::HeldBack, is_made_first)?;
    if exchange.waits {
        refuse_write::<K>(alloc, exchange, size, Full::After(1), is_made)?;
    }
    Ok(())
}

/// A cut head and a cut body: the answer to them fails, and nothing is changed.
fn refuse_writes_to_cuts<K: Filled>(alloc: Global, exchange: &Exchange) -> Result<(), Fail> {
    let head = exchange.head;
    refuse_write::<K>(alloc, exchange, 1, Full::After(0), false)?;
    if head < exchange.read {
        refuse_write::<K>(alloc, exchange, head, Full::After(0), false)?;
    }
    if exchange.waits {
        refuse_write::<K>(alloc, exchange, head, Full::After(1), false)?;
    }
    Ok(())
}

/// Serves the whole request to a writer that takes n writes, and fails unless that gets the whole answer.
fn serve_all<K: Keeper>(
    alloc: Global,
    keeper: &mut K,
    exchange: &Exchange,
    writes: u64,
) -> Result<(), Fail> {
    let (written, served) = serve_to(alloc, keeper, exchange.request.as_bytes(), writes)?;
    served?;
    exchange.compare_answer(exchange.request.len(), written.as_str())
}

/// 100 Continue takes one write, and the answer another.
fn take_each_write<K: Filled>(alloc: Global, exchange: &Exchange) -> Result<(), Fail> {
    let mut keeper = K::filled(alloc)?;
    let before = stated(alloc, &mut keeper)?;
    let writes: u64 = if exchange.waits { 2 } else { 1 };
    serve_all(alloc, &mut keeper, exchange, writes)?;
    compare_deed(alloc, &mut keeper, exchange, before.as_str())
}

/// What `serve_one` says in `err`.
#[test]
fn a_writer_that_fails_undoes_no_step(rt: HostRuntime) -> Result<(), Fail> {
    let alloc = rt.alloc();
    for row in rows() {
        let exchange = Exchange::of(alloc, row)?;
        refuse_each_write::<ListKeeper>(alloc, &exchange)?;
        refuse_writes_to_cuts::<ListKeeper>(alloc, &exchange)?;
        take_each_write::<ListKeeper>(alloc, &exchange)?;
    }
    Ok(())
}
