//! Laws of the lines: which bytes ask for a command, which are malformed and which are skipped.
//! Each is the contract of a public function that does nothing.
ghost use Rattle.std.specs.Prelude.{◌≡◌, ◌≢◌, ◌↔◌, ℕ, List, []};
ghost use Rattle.vault_core_model.specs.declared.command.Timed.{Timed};
ghost use Rattle.vault_lines_read.specs.Grammar.{HasShape, IsLineOf};
ghost use Rattle.vault_lines_read.specs.ReadLine.{line_of, without_cr};

use crate::read_line::Line;
use vault_base::refusal::Refusal;

/// A line asks for a command exactly where it is the JSON of an object of just the members of its
/// `do`, and the values of these members spell that command.
pub fn commands_are_spelled()
    ensures { (line : List ℕ) (t : Timed) → (line_of line ≡ Line.Command t) ↔ IsLineOf line t }
{}

/// A line is malformed exactly where it isn't empty and isn't the JSON of an object of just the
/// members of its `do`, each of its JSON type. So of another line a fault of a value is reported.
pub fn other_shapes_are_malformed()
    ensures { (line : List ℕ) → (line_of line ≡ Line.Refused Refusal.MalformedBody) ↔ ((without_cr line ≢ []) × (¬ HasShape line)) }
{}

/// A line is skipped exactly where nothing stands in it, or a CR alone.
pub fn empty_lines_are_skipped()
    ensures { (line : List ℕ) → (line_of line ≡ Line.Skip) ↔ (without_cr line ≡ []) }
{}
