//! Facts about the libraries `mime` and `mime_http`, in the folder proofs: an example and a counterexample for each definition of their
//! trusted files, and an instance of most laws. An example fails if its definition becomes too strong, and a counterexample if it becomes
//! too weak. The crate is separate, so that users of the libraries needn't prove it.
#![tactic(auto)]

ghost use Rattle.std.specs.Prelude.{List, ℕ, Bool, Option};
ghost use Rattle.mime.specs.Names.{NameIs};
ghost use Rattle.mime.specs.Items.{Item, IsFirstAccepted};
ghost use Rattle.mime.specs.Laws.{OneAnswer};

use mime::TextKey;
use mime::laws::{keys_decide, one_answer};

/// Proves that a string, as a key, finds exactly one answer in a list of parameters. This is an instance of the laws of keys.
pub fn string_key_has_one_answer(key: &&str)
    ensures most { OneAnswer (λ name flag. NameIs name flag key.now.now) }
    ensures least { (items : List Item) → (found : Option (List ℕ × Bool))
        × IsFirstAccepted (λ name flag. NameIs name flag key.now.now) items found }
{
    keys_decide();
    one_answer(key);
}

/// Proves that a [`TextKey`], too, finds exactly one answer.
pub fn text_key_has_one_answer(key: &TextKey<'_>)
    ensures most { OneAnswer (λ name flag. NameIs name flag key.now.0.now) }
    ensures least { (items : List Item) → (found : Option (List ℕ × Bool))
        × IsFirstAccepted (λ name flag. NameIs name flag key.now.0.now) items found }
{
    keys_decide();
    one_answer(key);
}
