//! Laws of the bodies of requests: which body makes which command, and which are malformed.
//! Each is the contract of a public function that does nothing.
ghost use Rattle.std.specs.Prelude.{◌≡◌, ◌↔◌, ℕ, List, Ok, Err};
ghost use Rattle.vault_core_model.specs.declared.command.Command.{Command};
ghost use Rattle.vault_http.specs.Bodies.{HasForm, Makes};
ghost use Rattle.vault_http_request.specs.Command.{command_of};
ghost use Rattle.vault_http_request.specs.declared.operation.Operation.{Operation};
ghost use Rattle.vault_http_request.specs.declared.request_headers.Locks.{Locks};

use vault_base::refusal::Refusal;

/// An operation makes a command of a body exactly where the body is a version's content, or the JSON of an object of just
/// the members of a setting, which spell it as those of a line do.
pub fn bodies_are_spelled()
    ensures { (o : Operation) (locks : Locks) (body : List ℕ) (c : Command) → (command_of o locks body ≡ Ok c) ↔ Makes o locks body c }
{}

/// The body of a setting is malformed exactly where it isn't the JSON of an object of just these members, each of its
/// JSON type. So of another body a fault of a value is reported.
pub fn other_bodies_are_malformed()
    ensures { (o : Operation) (locks : Locks) (body : List ℕ) → (command_of o locks body ≡ Err Refusal.MalformedBody) ↔ (¬ HasForm o body) }
{}
