//! For which hosts a server answers.
ghost use Rattle.std.specs.Prelude.{◌≡◌, ◌≤◌, ◌++◌, ◌∷◌, [], ℕ, List, OnOk, All, length, map};
ghost use Rattle.std.specs.List.{list_all, list_any};
ghost use Rattle.std.specs.Option.{option_copied};
ghost use Rattle.std.specs.Char.{is_ascii_digit};
ghost use Rattle.httparse.specs.Spans.{header_bytes, IsHeaderWithin};
ghost use Rattle.vault_http_request.specs.Host as spec;

use httparse::spans::HeaderSpan;
use std::alloc::{AllocError, Global};
use std::marker::Model;
use vault_http_target::fields::{count_of, same_name, value_of};
use vault_http_target::text::Text;

/// The hosts that requests may be for, beside this machine's own names; none of them: requests may be for any host.
#[derive(Drop)]
pub struct Hosts {
    names: Vec<Text>,
}

impl Model for Hosts {
    ghost Value = { List (List ℕ) };

    ghost view = { λ h. h.names.items };
}

impl Hosts {
    /// Any host.
    pub fn any(alloc: Global) -> Hosts
        ensures { result ≡ [] }
    {
        Hosts {
            names: Vec::new(alloc),
        }
    }

    /// One host more. The error is out of memory.
    pub fn push(&mut self, alloc: Global, name: &str) -> Result<(), AllocError>
        ensures { OnOk result (self.new ≡ self.old ++ name.now ∷ []) }
    {
        self.names.push(Text::of(alloc, name)?)?;
        Ok(())
    }

    /// The hosts, in their order.
    fn as_slice(&self) -> &[Text]
        ensures { result.now ≡ self.now }
    {
        self.names.as_slice()
    }
}

fn are_digits(bytes: &[u8]) -> bool
    ensures { result ≡ list_all is_ascii_digit bytes.now }
{
    bytes.iter().all(|byte| byte.is_ascii_digit())
}

/// Whether bytes after a name are nothing, or a port.
fn is_port(bytes: &[u8]) -> bool
    ensures { result ≡ spec.is_port bytes.now }
{
    match bytes.split_first() {
        Some((first, digits)) => *first == b':' && are_digits(digits),
        None => true,
    }
}

/// Whether the value of a header `host` names this host, with a port or without.
fn names_host(value: &[u8], name: &[u8]) -> bool
    ensures { result ≡ spec.names_host value.now name.now }
{
    if value.len() < name.len() {
        return false;
    }
    same_name(&value[..name.len()], name) && is_port(&value[name.len()..])
}

/// Whether the value names this machine, as seen from it.
fn is_own(value: &[u8]) -> bool
    ensures { result ≡ spec.is_own value.now }
{
    names_host(value, b"localhost")
        || names_host(value, b"127.0.0.1")
        || names_host(value, b"[::1]")
}

/// Whether the value names one of these hosts.
fn names_one(value: &[u8], names: &[Text]) -> bool
    ensures { result ≡ list_any (spec.names_host value.now) names.now }
{
    names
        .iter()
        .any(|name| names_host(value, name.as_str().as_bytes()))
}

/// Whether there is a value, and it names this machine or one of these hosts.
fn is_known(value: Option<&[u8]>, names: &[Text]) -> bool
    ensures { result ≡ spec.is_known (option_copied value.entry) names.now }
{
    match value {
        Some(value) => is_own(value) || names_one(value, names),
        None => false,
    }
}

/// Whether a head with these headers is for one of the hosts: its one header `host` names this machine or one of them.
/// Where there are none, each head is.
pub fn is_for(hosts: &Hosts, buf: &[u8], headers: &[HeaderSpan]) -> bool
    requires within { All (IsHeaderWithin (length buf.now)) headers.now }
    requires few { length headers.now ≤ 64 }
    ensures { result ≡ spec.is_for hosts.now (map (header_bytes buf.now) headers.now) }
{
    let names = hosts.as_slice();
    names.is_empty()
        || (count_of(buf, headers, b"host") == 1
            && is_known(value_of(buf, headers, b"host"), names))
}
