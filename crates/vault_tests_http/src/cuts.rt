//! Each row's request, of which a reader gives a beginning: after every byte it ends, or it fails.
use crate::exchange::{Exchange, answer_whole, compare_deed};
use crate::rows::rows;
use crate::serving::{READING, answer, serve};
use crate::vault::{Filled, answers_still, stated};
use std::alloc::Global;
use std::test::Fail;
use vault_core_list::list_keeper::ListKeeper;
use vault_core_model::keeper::Keeper;
use vault_failing::streams::FailingReader;
use vault_http::ServeFault;
use vault_transcript::replies_of::edge;

/// What a reader does after the bytes that it gives.
#[derive(Clone, Copy)]
enum Cut {
    Ends,
    Fails,
}

/// Fails unless the first n bytes get their one answer where the reader ends.
fn serve_ending<K: Keeper>(
    alloc: Global,
    keeper: &mut K,
    exchange: &Exchange,
    size: usize,
) -> Result<(), Fail> {
    let mut reader = exchange.front(size)?;
    let given = answer(alloc, &mut reader, keeper, READING)?;
    exchange.compare_answer(size, given.as_str())
}

/// Serves what a reader gives before it fails: what is written, and what that comes to.
fn serve_from<K: Keeper>(
    alloc: Global,
    keeper: &mut K,
    front: &[u8],
) -> Result<(String, Result<(), ServeFault>), Fail> {
    let mut reader = FailingReader { bytes: front };
    let mut written = Vec::new(alloc);
    let served = serve(alloc, &mut reader, &mut written, keeper, READING);
    Ok((String::from_utf8(written)?, served))
}

/// Fails unless `Read` is reported where the reader fails after n bytes, and nothing but 100 Continue is written.
/// Where they are all that is read, it isn't asked any more, and they get their answer.
fn serve_failing<K: Keeper>(
    alloc: Global,
    keeper: &mut K,
    exchange: &Exchange,
    size: usize,
) -> Result<(), Fail> {
    let (written, served) = serve_from(alloc, keeper, exchange.front(size)?)?;
    if served == Ok(()) && size == exchange.read {
        return exchange.compare_answer(size, written.as_str());
    }
    if served == Err(ServeFault::Read) && size < exchange.read {
        return exchange.compare_replies(size, written.as_str());
    }
    Err(Fail::new(format_args!("{served:?} to {size} bytes of {}", exchange.request)))
}

fn serve_front<K: Keeper>(
    alloc: Global,
    keeper: &mut K,
    exchange: &Exchange,
    cut: Cut,
    size: usize,
) -> Result<(), Fail> {
    match cut {
        Cut::Ends => serve_ending(alloc, keeper, exchange, size),
        Cut::Fails => serve_failing(alloc, keeper, exchange, size),
    }
}

/// The first n bytes make no step.
fn cut_after<K: Keeper>(
    alloc: Global,
    keeper: &mut K,
    exchange: &Exchange,
    cut: Cut,
    size: usize,
) -> Result<(), Fail> {
    let before = edge(keeper)?;
    serve_front(alloc, keeper, exchange, cut, size)?;
    if edge(keeper)? == before {
        return Ok(());
    }
    Err(Fail::new(format_args!("{size} bytes of {} make a step", exchange.request)))
}

/// How many bytes are the whole: of a reader that fails, those that are read.
fn whole_of(exchange: &Exchange, cut: Cut) -> usize {
    match cut {
        Cut::Ends => exchange.request.len(),
        Cut::Fails => exchange.read,
    }
}

fn cut_each<K: Keeper>(
    alloc: Global,
    keeper: &mut K,
    exchange: &Exchange,
    cut: Cut,
) -> Result<(), Fail> {
    for size in 0..whole_of(exchange, cut) {
        cut_after(alloc, keeper, exchange, cut, size)?;
    }
    Ok(())
}

fn serve_whole<K: Keeper>(
    alloc: Global,
    keeper: &mut K,
    exchange: &Exchange,
    cut: Cut,
) -> Result<(), Fail> {
    match cut {
        Cut::Ends => answer_whole(alloc, keeper, exchange),
        Cut::Fails => serve_failing(alloc, keeper, exchange, exchange.read),
    }
}

/// No cut changes anything; then the whole does what it should, to a vault that is reported so before.
fn cut_and_serve<K: Keeper>(
    alloc: Global,
    keeper: &mut K,
    exchange: &Exchange,
    cut: Cut,
    before: &str,
) -> Result<(), Fail> {
    cut_each(alloc, keeper, exchange, cut)?;
    answers_still(alloc, keeper, before)?;
    serve_whole(alloc, keeper, exchange, cut)?;
    compare_deed(alloc, keeper, exchange, before)
}

fn cut_everywhere<K: Filled>(alloc: Global, exchange: &Exchange, cut: Cut) -> Result<(), Fail> {
    let mut keeper = K::filled(alloc)?;
    let before = stated(alloc, &mut keeper)?;
    cut_and_serve(alloc, &mut keeper, exchange, cut, before.as_str())
}

fn cut_rows(alloc: Global, cut: Cut) -> Result<(), Fail> {
    for row in rows() {
        let exchange = Exchange::of(alloc, row)?;
        cut_everywhere::<ListKeeper>(alloc, &exchange, cut)?;
    }
    Ok(())
}

/// No byte gets no answer; a cut head gets InvalidArgument, a cut body MalformedBody after 100 Continue where
/// the head asked for it, and neither makes a step: what `serve_one` says in `ok`.
#[test]
fn a_request_that_is_cut_makes_no_step(rt: HostRuntime) -> Result<(), Fail> {
    cut_rows(rt.alloc(), Cut::Ends)
}

/// What `serve_one` says in `unread`, `err` and `taken`.
#[test]
fn a_reader_that_fails_makes_no_step(rt: HostRuntime) -> Result<(), Fail> {
    cut_rows(rt.alloc(), Cut::Fails)
}
