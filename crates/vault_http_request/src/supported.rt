//! Headers that ask for what the vault doesn't do.
ghost use Rattle.std.specs.Prelude.{◌≡◌, ◌≤◌, All, drop, length, map};
ghost use Rattle.std.specs.List.{list_any};
ghost use Rattle.httparse.specs.Spans.{header_bytes, IsHeaderWithin};
ghost use Rattle.vault_values.specs.Fault.{Gives};
ghost use Rattle.vault_http_request.specs.Supported as spec;

use httparse::spans::HeaderSpan;
use vault_base::refusal::Refusal;
use vault_http_target::fields::{has, same_name};
use vault_values::fault::LineFault;

/// The bytes from a place on.
fn from(text: &[u8], at: usize) -> &[u8]
    requires { at ≤ length text.now }
    ensures { result.now ≡ drop at text.now }
{
    &text[at..]
}

/// Whether a text has another one in it.
fn contains(text: &[u8], part: &[u8]) -> bool
    ensures { result ≡ spec.contains part.now text.now }
{
    for i in 0..text.len() {
        if from(text, i).starts_with(part) {
            return true;
        }
    }
    false
}

/// Whether a header says that the body comes in signed chunks (Amazon S3 API Reference, "Signature
/// calculations for the Authorization header: transferring payload in multiple chunks").
fn is_streamed(name: &[u8], value: &[u8]) -> bool
    ensures { result ≡ spec.is_streamed (name.now, value.now) }
{
    if same_name(name, b"content-encoding") {
        return contains(value, b"aws-chunked");
    }
    same_name(name, b"x-amz-content-sha256") && value.starts_with(b"STREAMING-")
}

fn has_streamed(buf: &[u8], headers: &[HeaderSpan]) -> bool
    requires { All (IsHeaderWithin (length buf.now)) headers.now }
    ensures { result ≡ list_any spec.is_streamed (map (header_bytes buf.now) headers.now) }
{
    for header in headers {
        if is_streamed(header.name.of(buf), header.value.of(buf)) {
            return true;
        }
    }
    false
}

/// Whether a header asks for a part of an object, or for it under a condition (RFC 9110, sections 13
/// and 14).
fn has_condition(buf: &[u8], headers: &[HeaderSpan]) -> bool
    requires { All (IsHeaderWithin (length buf.now)) headers.now }
    ensures { result ≡ spec.has_condition (map (header_bytes buf.now) headers.now) }
{
    has(buf, headers, b"range")
        || has(buf, headers, b"if-match")
        || has(buf, headers, b"if-none-match")
        || has(buf, headers, b"if-modified-since")
        || has(buf, headers, b"if-unmodified-since")
}

fn is_unsupported(buf: &[u8], headers: &[HeaderSpan]) -> bool
    requires { All (IsHeaderWithin (length buf.now)) headers.now }
    ensures { result ≡ spec.is_unsupported (map (header_bytes buf.now) headers.now) }
{
    has(buf, headers, b"transfer-encoding")
        || has_condition(buf, headers)
        || has(buf, headers, b"x-amz-copy-source")
        || has(buf, headers, b"x-amz-tagging")
        || has_streamed(buf, headers)
}

/// No header asks for what the vault doesn't do; else `NotImplemented`.
pub fn check_supported(buf: &[u8], headers: &[HeaderSpan]) -> Result<(), LineFault>
    requires { All (IsHeaderWithin (length buf.now)) headers.now }
    ensures { Gives (λ x. x) result (spec.supported (map (header_bytes buf.now) headers.now)) }
{
    if is_unsupported(buf, headers) {
        return Err(LineFault::Refused(Refusal::NotImplemented));
    }
    Ok(())
}
