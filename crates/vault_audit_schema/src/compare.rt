//! Parts of a schema against the forms that they must have.

ghost use Rattle.std.specs.Prelude.{◌≡◌, ◌↔◌, map, slice_get, IsTrue, MatchOption};
ghost use Rattle.vault_audit_schema.specs.Compare.{IsFirstUnlike};

/// What a part of a schema must look like.
pub(crate) trait Form<T> {
    ghost use Rattle.std.specs.Prelude.{◌≡◌, ◌↔◌, IsTrue};

    // The part of this form.
    ghost shape: { Self → T };

    /// Whether the part has this form.
    fn is_form_of(&self, part: &T) -> bool
        ensures { IsTrue result ↔ (part.now ≡ shape self.now) };
}

/// Whether the part at this place has this form.
fn has_form_at<T, F: Form<T>>(parts: &[T], at: usize, form: &F) -> bool
    ensures { IsTrue result ↔ (slice_get parts.now at ≡ Some (F.shape form.now)) }
{
    match parts.get(at) {
        Some(part) => form.is_form_of(part),
        None => false,
    }
}

/// The first place at which the parts differ from the forms, or none where they are as many and each has its form.
pub(crate) fn first_unlike<T, F: Form<T>>(parts: &[T], forms: &[F]) -> Option<usize>
    ensures { MatchOption result (parts.now ≡ map F.shape forms.now) (IsFirstUnlike parts.now (map F.shape forms.now)) }
{
    for (at, form) in forms.iter().enumerate() {
        if !has_form_at(parts, at, form) {
            return Some(at);
        }
    }
    if parts.len() == forms.len() {
        None
    } else {
        Some(forms.len())
    }
}

/// Whether the parts are as many as the forms, and each has its form.
pub(crate) fn have_forms<T, F: Form<T>>(parts: &[T], forms: &[F]) -> bool
    ensures { IsTrue result ↔ (parts.now ≡ map F.shape forms.now) }
{
    first_unlike(parts, forms).is_none()
}
