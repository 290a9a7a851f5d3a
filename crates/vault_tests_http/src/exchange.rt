//! A row as bytes: its request, and what is answered to each beginning of it.
use crate::rows::{Deed, Row};
use crate::serving::{READING, answer, spelled};
use crate::vault::stated;
use std::alloc::Global;
use std::test::Fail;
use vault_core_model::keeper::Keeper;
use vault_transcript::trial::compare;

pub const GO_ON: &str = "HTTP/1.1 100 Continue\r\n\r\n";

const NO_HEAD: &str =
    "HTTP/1.1 400 Bad Request\r\ndate: Mon, 15 Jan 2024 10:30:00 GMT\r\nconnection: close\r\ncontent-type: application/json\r\ncontent-length: 33\r\n\r\n{\"code\":\"InvalidArgument\",\"n\":10}";

const NO_BODY: &str =
    "HTTP/1.1 400 Bad Request\r\ndate: Mon, 15 Jan 2024 10:30:00 GMT\r\nconnection: close\r\ncontent-type: application/json\r\ncontent-length: 31\r\n\r\n{\"code\":\"MalformedBody\",\"n\":12}";

/// The same after `GO_ON`.
const GO_ON_NO_BODY: &str =
    "HTTP/1.1 100 Continue\r\n\r\nHTTP/1.1 400 Bad Request\r\ndate: Mon, 15 Jan 2024 10:30:00 GMT\r\nconnection: close\r\ncontent-type: application/json\r\ncontent-length: 31\r\n\r\n{\"code\":\"MalformedBody\",\"n\":12}";

/// A request and its answer.
#[derive(Drop)]
pub struct Exchange {
    pub request: String,
    pub deed: Deed,
    /// Of how many bytes the head is.
    pub head: usize,
    /// How many bytes are read.
    pub read: usize,
    /// Whether the client waits for 100 Continue before it sends the body.
    pub waits: bool,
    /// The answer to the whole.
    pub whole: String,
}

/// How many bytes stand up to the blank line and with it.
fn head_of(request: &str) -> Result<usize, Fail> {
    let (_, body) = request.split_once("\r\n\r\n").ok_or("a head")?;
    Ok(request.len().saturating_sub(body.len()))
}

impl Exchange {
    pub fn of(alloc: Global, row: &Row) -> Result<Exchange, Fail> {
        let request = spelled(alloc, row.request)?;
        let head = head_of(request.as_str())?;
        let whole = spelled(alloc, row.answer)?;
        let waits = whole.as_str().starts_with(GO_ON);
        let all = request.len();
        Ok(Exchange {
            request,
            deed: row.deed,
            head,
            read: if row.deed == Deed::Left { head } else { all },
            waits,
            whole,
        })
    }

    /// Fails unless this is what is answered to the first n bytes.
    pub fn compare_answer(&self, size: usize, given: &str) -> Result<(), Fail> {
        let name = self.request.as_str();
        if size == 0 {
            compare(name, given, "")
        } else if size < self.head {
            compare(name, given, NO_HEAD)
        } else if size >= self.read {
            compare(name, given, self.whole.as_str())
        } else if self.waits {
            compare(name, given, GO_ON_NO_BODY)
        } else {
            compare(name, given, NO_BODY)
        }
    }

    /// Fails unless this is what is written before the rest of n bytes is waited for.
    pub fn compare_replies(&self, size: usize, given: &str) -> Result<(), Fail> {
        let name = self.request.as_str();
        if self.waits && size >= self.head {
            compare(name, given, GO_ON)
        } else {
            compare(name, given, "")
        }
    }

    /// The first n bytes of the request.
    pub fn front(&self, size: usize) -> Result<&[u8], Fail> {
        Ok(self.request.as_bytes().get(..size).ok_or("a front")?)
    }
}

/// Fails unless the whole request is answered as it should be, and what isn't read of it is left, as is what comes
/// after it.
pub fn answer_whole<K: Keeper>(
    alloc: Global,
    keeper: &mut K,
    exchange: &Exchange,
) -> Result<(), Fail> {
    let request = exchange.request.as_str();
    let input = format!(in alloc; "{request}more")?;
    let mut reader = input.as_bytes();
    let given = answer(alloc, &mut reader, keeper, READING)?;
    exchange.compare_answer(request.len(), given.as_str())?;
    let left = reader.len();
    let wanted = input.len().saturating_sub(exchange.read);
    if left == wanted {
        return Ok(());
    }
    Err(Fail::new(format_args!("wanted {wanted} bytes left, got {left}, of {input}")))
}

/// Fails unless the vault is another than it was just where the whole request should change it.
pub fn compare_deed<K: Keeper>(
    alloc: Global,
    keeper: &mut K,
    exchange: &Exchange,
    before: &str,
) -> Result<(), Fail> {
    let after = stated(alloc, keeper)?;
    if (after.as_str() != before) == (exchange.deed == Deed::Made) {
        return Ok(());
    }
    Err(Fail::new(format_args!("{} doesn't do what it should", exchange.request)))
}
