//! The headers of a head, where they lie in its bytes.
ghost use Rattle.std.specs.Prelude.{◌≡◌, ◌≤◌, length, map, All};
ghost use Rattle.std.specs.Option.{option_copied};
ghost use Rattle.httparse.specs.Spans.{header_bytes, IsHeaderWithin};
ghost use Rattle.vault_http_target.specs.Fields as spec;

use httparse::spans::HeaderSpan;

/// Whether two texts are the same but for the case of ASCII letters.
pub fn same_name(a: &[u8], b: &[u8]) -> bool
    ensures { result ≡ spec.same_name a.now b.now }
{
    a.eq_ignore_ascii_case(b)
}

/// The value of the first header of that name, without the blanks round it.
pub fn value_of<'b>(buf: &'b [u8], headers: &[HeaderSpan], name: &[u8]) -> Option<&'b [u8]>
    requires { All (IsHeaderWithin (length buf.now)) headers.now }
    ensures { option_copied result ≡ spec.value_of name.now (map (header_bytes buf.now) headers.now) }
{
    for header in headers {
        if same_name(header.name.of(buf), name) {
            return Some(header.value.of(buf));
        }
    }
    None
}

/// Whether a header has that name.
pub fn has(buf: &[u8], headers: &[HeaderSpan], name: &[u8]) -> bool
    requires { All (IsHeaderWithin (length buf.now)) headers.now }
    ensures { result ≡ spec.has name.now (map (header_bytes buf.now) headers.now) }
{
    value_of(buf, headers, name).is_some()
}

/// How many headers have that name.
pub fn count_of(buf: &[u8], headers: &[HeaderSpan], name: &[u8]) -> usize
    requires within { All (IsHeaderWithin (length buf.now)) headers.now }
    requires few { length headers.now ≤ 64 }
    ensures { result ≡ spec.count_of name.now (map (header_bytes buf.now) headers.now) }
{
    let mut count = 0;
    for header in headers {
        if same_name(header.name.of(buf), name) {
            count += 1;
        }
    }
    count
}
