//! Requests of each target and method, and of the forms that aren't served, each with its answer.

/// What a whole request does.
#[derive(Clone, Copy, PartialEq, Eq)]
pub enum Deed {
    /// It is read to its end, and changes the vault.
    Made,
    /// It is read to its end, and changes nothing.
    Read,
    /// It changes nothing, and what comes after its head isn't read.
    Left,
}

/// A request and its answer, as texts: `|` means CR LF, `~` the headers `date` and `connection`.
#[derive(Clone, Copy)]
pub struct Row {
    pub request: &'static str,
    pub deed: Deed,
    pub answer: &'static str,
}

const ROWS: [Row; 34] = [
    Row {
        request: "PUT /docs/n HTTP/1.1|host: x|x-vault-caller: ann|content-length: 5|expect: 100-continue||hello",
        deed: Deed::Made,
        answer: "HTTP/1.1 100 Continue||HTTP/1.1 200 OK|~|content-length: 0|x-amz-version-id: 6||",
    },
    Row {
        request: "PUT /docs/n HTTP/1.1|x-vault-caller: ann|content-length: 5|x-amz-object-lock-mode: COMPLIANCE|x-amz-object-lock-retain-until-date: 2031-01-01T00:00:00Z|x-amz-object-lock-legal-hold: ON||hello",
        deed: Deed::Made,
        answer: "HTTP/1.1 200 OK|~|content-length: 0|x-amz-version-id: 6||",
    },
    Row {
        request: "PUT /docs/n HTTP/1.1|x-vault-caller: ann|content-length: 0|expect: 100-continue||",
        deed: Deed::Made,
        answer: "HTTP/1.1 200 OK|~|content-length: 0|x-amz-version-id: 6||",
    },
    Row {
        request: "PUT /docs/n HTTP/1.1|host: x|x-vault-caller: ann||hello",
        deed: Deed::Left,
        answer: r#"HTTP/1.1 411 Length Required|~|content-type: application/json|content-length: 38||{"code":"MissingContentLength","n":16}"#,
    },
    Row {
        request: "PUT /docs/n HTTP/1.1|host: x|x-vault-caller: ann|transfer-encoding: chunked||hello",
        deed: Deed::Left,
        answer: r#"HTTP/1.1 501 Not Implemented|~|content-type: application/json|content-length: 32||{"code":"NotImplemented","n":17}"#,
    },
    Row {
        request: "PUT /docs/n HTTP/1.1|x-vault-caller: ann|content-length: 5|expect: 100-continue|x-amz-object-lock-mode: GOVERNANCE||hello",
        deed: Deed::Left,
        answer: r#"HTTP/1.1 400 Bad Request|~|content-type: application/json|content-length: 33||{"code":"InvalidArgument","n":10}"#,
    },
    Row {
        request: "PUT /docs/n HTTP/1.1|x-vault-caller: Ann|content-length: 5||hello",
        deed: Deed::Left,
        answer: r#"HTTP/1.1 403 Forbidden|~|content-type: application/json|content-length: 55||{"code":"AccessDenied","n":3,"reason":"unknown-caller"}"#,
    },
    Row {
        request: "PUT /other/n HTTP/1.1|x-vault-caller: ann|content-length: 5|expect: 100-continue||hello",
        deed: Deed::Read,
        answer: r#"HTTP/1.1 100 Continue||HTTP/1.1 404 Not Found|~|content-type: application/json|content-length: 29||{"code":"NoSuchBucket","n":4}"#,
    },
    Row {
        request: "GET /docs/a HTTP/1.1|x-vault-caller: ann||",
        deed: Deed::Read,
        answer: "HTTP/1.1 200 OK|~|content-type: application/octet-stream|content-length: 5|x-amz-version-id: 1|x-amz-object-lock-mode: COMPLIANCE|x-amz-object-lock-retain-until-date: 2030-01-01T00:00:00Z|x-amz-object-lock-legal-hold: OFF||hello",
    },
    Row {
        request: "GET /docs/a HTTP/1.1|x-vault-caller: ann|content-length: 4||more",
        deed: Deed::Left,
        answer: "HTTP/1.1 200 OK|~|content-type: application/octet-stream|content-length: 5|x-amz-version-id: 1|x-amz-object-lock-mode: COMPLIANCE|x-amz-object-lock-retain-until-date: 2030-01-01T00:00:00Z|x-amz-object-lock-legal-hold: OFF||hello",
    },
    Row {
        request: "GET /docs/b HTTP/1.1|x-vault-caller: ann||",
        deed: Deed::Read,
        answer: r#"HTTP/1.1 404 Not Found|~|content-type: application/json|content-length: 40|x-amz-delete-marker: true||{"code":"NoSuchKey","marker":true,"n":5}"#,
    },
    Row {
        request: "GET /docs/b?versionId=2 HTTP/1.0|x-vault-caller: ann||",
        deed: Deed::Read,
        answer: "HTTP/1.1 200 OK|~|content-type: application/octet-stream|content-length: 2|x-amz-version-id: 2|x-amz-object-lock-legal-hold: OFF||hi",
    },
    Row {
        request: "GET /docs/b?versionId=3 HTTP/1.1|x-vault-caller: ann||",
        deed: Deed::Read,
        answer: r#"HTTP/1.1 405 Method Not Allowed|~|content-type: application/json|content-length: 33|allow: DELETE|x-amz-delete-marker: true||{"code":"MethodNotAllowed","n":7}"#,
    },
    Row {
        request: "HEAD /docs/a HTTP/1.1|x-vault-caller: ann||",
        deed: Deed::Read,
        answer: "HTTP/1.1 200 OK|~|content-type: application/octet-stream|content-length: 5|x-amz-version-id: 1|x-amz-object-lock-mode: COMPLIANCE|x-amz-object-lock-retain-until-date: 2030-01-01T00:00:00Z|x-amz-object-lock-legal-hold: OFF||",
    },
    Row {
        request: "HEAD /docs/c?versionId=4 HTTP/1.1|x-vault-caller: ann||",
        deed: Deed::Read,
        answer: "HTTP/1.1 200 OK|~|content-type: application/octet-stream|content-length: 1|x-amz-version-id: 4|x-amz-object-lock-mode: GOVERNANCE|x-amz-object-lock-retain-until-date: 2030-01-01T00:00:00Z|x-amz-object-lock-legal-hold: ON||",
    },
    Row {
        request: "GET /docs/d HTTP/1.1|x-vault-caller: ann||",
        deed: Deed::Read,
        answer: "HTTP/1.1 204 No Content|~|x-vault-external: 5368709120|x-vault-sha256: ba7816bf8f01cfea414140de5dae2223b00361a396177a9cb410ff61f20015ad|x-amz-version-id: 5|x-amz-object-lock-legal-hold: ON||",
    },
    Row {
        request: "HEAD /docs/d?versionId=5 HTTP/1.1|x-vault-caller: ann||",
        deed: Deed::Read,
        answer: "HTTP/1.1 200 OK|~|content-type: application/octet-stream|content-length: 5368709120|x-amz-version-id: 5|x-amz-object-lock-legal-hold: ON||",
    },
    Row {
        request: "DELETE /docs/a HTTP/1.1|x-vault-caller: ann||",
        deed: Deed::Made,
        answer: "HTTP/1.1 204 No Content|~|x-amz-delete-marker: true|x-amz-version-id: 6||",
    },
    Row {
        request: "DELETE /docs/a?versionId=1 HTTP/1.1|x-vault-caller: gov|x-amz-bypass-governance-retention: true||",
        deed: Deed::Read,
        answer: r#"HTTP/1.1 403 Forbidden|~|content-type: application/json|content-length: 61||{"code":"AccessDenied","n":3,"reason":"retention-compliance"}"#,
    },
    Row {
        request: "DELETE /docs/b?versionId=2 HTTP/1.1|x-vault-caller: ann||",
        deed: Deed::Made,
        answer: "HTTP/1.1 204 No Content|~|x-amz-version-id: 2||",
    },
    Row {
        request: "DELETE /docs/b?versionId=3 HTTP/1.1|x-vault-caller: ann||",
        deed: Deed::Made,
        answer: "HTTP/1.1 204 No Content|~|x-amz-delete-marker: true|x-amz-version-id: 3||",
    },
    Row {
        request: "POST /docs/a HTTP/1.1|x-vault-caller: ann||",
        deed: Deed::Read,
        answer: r#"HTTP/1.1 405 Method Not Allowed|~|content-type: application/json|content-length: 33|allow: DELETE, GET, HEAD, PUT||{"code":"MethodNotAllowed","n":7}"#,
    },
    // The value of `expect` has any letter case.
    Row {
        request: r#"PUT /docs/a?retention&versionId=1 HTTP/1.1|x-vault-caller: ann|content-length: 52|expect: 100-Continue||{"mode":"COMPLIANCE","until":"2030-01-01T00:00:01Z"}"#,
        deed: Deed::Made,
        answer: "HTTP/1.1 100 Continue||HTTP/1.1 200 OK|~|content-length: 0||",
    },
    Row {
        request: r#"PUT /docs/c?retention HTTP/1.1|x-vault-caller: gov|content-length: 52|x-amz-bypass-governance-retention: TRUE||{"mode":"GOVERNANCE","until":"2025-01-01T00:00:00Z"}"#,
        deed: Deed::Made,
        answer: "HTTP/1.1 200 OK|~|content-length: 0||",
    },
    Row {
        request: "GET /docs/c?retention HTTP/1.1|x-vault-caller: ann||",
        deed: Deed::Read,
        answer: r#"HTTP/1.1 200 OK|~|content-type: application/json|content-length: 66||{"retention":{"mode":"GOVERNANCE","until":"2030-01-01T00:00:00Z"}}"#,
    },
    Row {
        request: r#"PUT /docs/c?legal-hold HTTP/1.1|x-vault-caller: ann|content-length: 14||{"hold":"OFF"}"#,
        deed: Deed::Made,
        answer: "HTTP/1.1 200 OK|~|content-length: 0||",
    },
    Row {
        request: "GET /docs/c?legal-hold&versionId=4 HTTP/1.1|x-vault-caller: ann||",
        deed: Deed::Read,
        answer: r#"HTTP/1.1 200 OK|~|content-type: application/json|content-length: 13||{"hold":"ON"}"#,
    },
    Row {
        request: "GET /docs?versions&prefix=b&max-keys=1 HTTP/1.1|x-vault-caller: ann||",
        deed: Deed::Read,
        answer: r#"HTTP/1.1 200 OK|~|content-type: application/json|content-length: 131||{"entries":[{"admitted":"2024-01-15T10:29:00Z","current":true,"delete_marker":true,"key":"b","size":0,"version_id":3}],"more":true}"#,
    },
    Row {
        request: "PUT /docs?object-lock HTTP/1.1|x-vault-caller: ann|content-length: 2||{}",
        deed: Deed::Made,
        answer: "HTTP/1.1 200 OK|~|content-length: 0||",
    },
    Row {
        request: r#"PUT /docs/?object-lock HTTP/1.1|x-vault-caller: ann|content-length: 31|expect: 100-continue||{"mode":"COMPLIANCE","years":1}"#,
        deed: Deed::Made,
        answer: "HTTP/1.1 100 Continue||HTTP/1.1 200 OK|~|content-length: 0||",
    },
    Row {
        request: "GET /docs?object-lock HTTP/1.1|x-vault-caller: ann||",
        deed: Deed::Read,
        answer: r#"HTTP/1.1 200 OK|~|content-type: application/json|content-length: 42||{"default":{"days":7,"mode":"GOVERNANCE"}}"#,
    },
    Row {
        request: r#"PUT /docs?lifecycle HTTP/1.1|x-vault-caller: ann|content-length: 93||{"rules":[{"ID":"r2","Status":"Enabled","NoncurrentVersionExpiration":{"NoncurrentDays":1}}]}"#,
        deed: Deed::Made,
        answer: "HTTP/1.1 200 OK|~|content-length: 0||",
    },
    Row {
        request: "GET /docs?lifecycle HTTP/1.1|x-vault-caller: ann||",
        deed: Deed::Read,
        answer: r#"HTTP/1.1 200 OK|~|content-type: application/json|content-length: 78||{"rules":[{"Expiration":{"Days":3},"ID":"r1","Prefix":"","Status":"Enabled"}]}"#,
    },
    Row {
        request: "DELETE /docs?lifecycle HTTP/1.1|x-vault-caller: ann||",
        deed: Deed::Made,
        answer: "HTTP/1.1 204 No Content|~||",
    },
];

/// Each target and method, and the forms that aren't served. It alone names the table, as a proof goes through all its
/// texts wherever it is named.
pub fn rows() -> &'static [Row] {
    &ROWS
}
