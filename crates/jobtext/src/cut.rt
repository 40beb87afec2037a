ghost use Rattle.std.specs.Prelude.{◌≡◌};
ghost use Rattle.std.specs.Option.{option_map};
ghost use Rattle.jobtext.specs.Bytes.{front, rest};

/// What stands before the first mark, and what is behind it, if there is one.
pub fn cut(text: &[u8], mark: u8) -> (&[u8], Option<&[u8]>)
    ensures before { result.0.now ≡ front mark text.now }
    ensures after { option_map (λ x. x.now) result.1 ≡ rest mark text.now }
{
    match text.iter().position(|b| *b == mark) {
        Some(i) => (&text[..i], Some(&text[i + 1..])),
        None => (text, None),
    }
}
