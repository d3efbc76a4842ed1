// Whether a value is a wanted text.
ghost use Rattle.std.specs.Prelude.{◌≡◌};
ghost use Rattle.text_search.specs.Search.{is_text};

// Is the scalar v this text?
pub(crate) fn is_text(v: &[u8], wanted: &[u8]) -> bool
    ensures { result ≡ is_text wanted.now v.now }
{
    match v {
        [first, text @ ..] if first % 4 == 1 => text == wanted,
        [64, _, _, _, _, text @ ..] => text == wanted,
        [64, ..] => wanted.is_empty(),
        _ => false,
    }
}
