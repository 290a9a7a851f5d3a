//! What holds of every text, by a law that is the contract of a function that does nothing.
ghost use Rattle.std.specs.Prelude.{string_bytes};
ghost use Rattle.std.specs.Str.{IsUtf8};

/// The bytes of a text are UTF-8.
pub(crate) fn text_is_utf8(text: &String)
    ensures { IsUtf8 (string_bytes text.now) }
{
    let _text = text.as_str();
}
