//! The routes: a bucket, with a slash after it or not, and a key after that slash.
ghost use Rattle.std.specs.Prelude.{◌≡◌, Bool, IfOk, Ok};
ghost use Rattle.vault_values.specs.Fault.{Gives};
ghost use Rattle.vault_http_target.specs.Routes as spec;

use matchit::{InsertError, Router};
use std::alloc::Global;
use vault_values::fault::LineFault;

fn routes(alloc: Global) -> Result<Router<u8>, InsertError>
    ensures { IfOk result (λ router. router ≡ spec.routes) }
{
    let mut router = Router::new(alloc);
    router.insert("/{bucket}", 0)?;
    router.insert("/{bucket}/", 0)?;
    router.insert("/{bucket}/{*key}", 0)?;
    Ok(router)
}

fn has_route(alloc: Global, path: &str) -> Result<bool, LineFault>
    ensures { Gives {Y = Bool} (λ x. x) result (Ok (spec.has_route path.now)) }
{
    match routes(alloc) {
        Ok(router) => Ok(router.at(path).is_ok()),
        // The routes are well formed, and differ: only out of memory is left.
        Err(_) => Err(LineFault::Memory),
    }
}

/// Whether a path has a route. Bytes that aren't UTF-8 don't matter for it.
pub fn is_routed(alloc: Global, path: &[u8]) -> Result<bool, LineFault>
    ensures { Gives {Y = Bool} (λ x. x) result (Ok (spec.is_routed path.now)) }
{
    let text = String::from_utf8_lossy(alloc, path)?;
    has_route(alloc, text.as_str())
}
