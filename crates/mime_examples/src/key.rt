//! A `ParamKey` that accepts two names.

ghost use Rattle.std.specs.Prelude.{◌≡◌, ◌⊎◌, ℕ, List, Bool, Option, codes, option_map, unwrap_or};
ghost use Rattle.mime.specs.Names.{NameIs};
ghost use Rattle.mime.specs.Items.{items_of, IsFirstAccepted};

use mime::{Mime, Name, ParamKey, name_eq_str};

/// A key that accepts either of two names, ignoring ASCII case.
#[derive(Clone, Copy)]
pub struct EitherKey<'k>(pub &'k str, pub &'k str);

impl ParamKey for EitherKey<'_> {
    ghost Accepts = { λ key name ignores_case. NameIs name ignores_case key.0.now ⊎ NameIs name ignores_case key.1.now };

    fn accepts(&self, name: Name<'_>) -> bool {
        name_eq_str(&name, self.0) || name_eq_str(&name, self.1)
    }
}

/// Returns the weight that is written in a media type: the value of the first parameter `q` or `qs`, or `1` if there is none (RFC 9110,
/// 12.4.2).
pub fn weight_text_of(mime: &Mime) -> &str
    ensures { (found : Option (List ℕ × Bool))
        × IsFirstAccepted (λ name flag. NameIs name flag (codes "q") ⊎ NameIs name flag (codes "qs")) (items_of mime.now.media.pairs) found
        × (result.now ≡ unwrap_or (option_map (λ value. value.0) found) (codes "1")) }
{
    match mime.get_param(EitherKey("q", "qs")) {
        Some(weight) => weight.as_str(),
        None => "1",
    }
}
