//! Texts cut at a byte.

ghost use Rattle.std.specs.Prelude.{◌≡◌, ◌∷◌, [], List, ℕ};
ghost use Rattle.std.specs.Option.{option_map, option_map_or};
ghost use Rattle.ftp_proxy.specs.Header.{pieces, four};

/// What stands before the first byte `c`, and what stands behind it, where there is one.
pub fn cut(text: &[u8], c: u8) -> (&[u8], Option<&[u8]>)
    ensures { pieces c text.now ≡ result.0.now ∷ option_map_or (λ rest. pieces c rest.now) result.1 [] }
{
    for (i, b) in text.iter().enumerate() {
        if *b == c {
            return (&text[..i], Some(&text[i + 1..]));
        }
    }
    (text, None)
}

/// The four pieces between the bytes `c`, where there are just so many.
pub fn quarters(text: &[u8], c: u8) -> Option<(&[u8], &[u8], &[u8], &[u8])>
    ensures { option_map (λ q. (q.0.now, q.1.now, q.2.now, q.3.now)) result ≡ four (pieces c text.now) }
{
    let (first, rest) = cut(text, c);
    let (second, rest) = cut(rest?, c);
    let (third, rest) = cut(rest?, c);
    let (fourth, rest) = cut(rest?, c);
    match rest {
        Some(_) => None,
        None => Some((first, second, third, fourth)),
    }
}
