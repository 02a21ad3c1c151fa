//! The laws of the definitions, as functions. A caller of such a function can use its law in a proof. `name_constants` returns the constant
//! names. The other functions do nothing. docs/LAWS.md lists all claims, and docs/RULES.md defines viable, accepted and cut.
#![tactic(auto, using(crate::proofs::LawLemmas::laws))]

ghost use Rattle.std.specs.Borrow.{Bor};
ghost use Rattle.std.specs.Prelude.{◌≡◌, ◌↔◌, IsTrue, List, ℕ, map};
ghost use Rattle.std.specs.Cmp.Lexicographic.{slice_cmp};
ghost use Rattle.std.specs.List.{list_all};
ghost use Rattle.std.specs.Ordering.{ordering_then, bool_cmp, nat_cmp};
ghost use Rattle.mime.specs.Values.{OwnedMedia, lowered};
ghost use Rattle.mime.specs.Names.{name_table};
ghost use Rattle.mime.specs.Items.{name_text};
ghost use Rattle.mime.specs.Laws.{OneTree, OneReading, EmptyIsViable, PrefixOfViableIsViable, AcceptedIsViable, AcceptedOrRejected};
ghost use Rattle.mime.specs.Laws.{OneCompletion, CompletedIsRejected, NoCompletion, OneFault, OneLongestPrefix};
ghost use Rattle.mime.specs.Laws.{PrefixEndsBetweenCharacters, PrefixIsInUtf8};
ghost use Rattle.mime.specs.Laws.{PlusIsLast, KeptIsRead, EssenceIsRead, EssenceIsParts, SameEssence, OneOrder, BeforeIsTransitive};
ghost use Rattle.mime.specs.Laws.{BareTextIs, KeptTextIs, OneAnswer, HasAnswer, IsDecided, FirstDifferenceDecides};
ghost use Rattle.mime.specs.HeaderLaws.{KeptIsSafe, ParameterIsRead};
ghost use Rattle.mime.specs.Comparison.{Same, IsOrderOf};
ghost use Rattle.mime.specs.HashLaws.{RespectsEquality, IsPrefixFree};
ghost use Rattle.mime.specs.CutLaws.{OneCut, CutHasItems, CutWritesText, OneCount, CommaContains, JoinedComesBack, HttpListIsCut};
ghost use Rattle.mime.specs.CutLaws.{PassesOneCharacter};
ghost use Rattle.mime.specs.CutLaws.{RunGivesCut, PrintedListComesBack, CommaContainsOnRuns};

use crate::atoms::Atom;
use crate::iter::Bad;
use crate::name::constants::NAMES;
use crate::name::{Name, ParamKey, TextKey};
use crate::scan::ParseError;
use crate::value::Mime;
use std::hash::Hash;

/// At most one well-formed syntax tree spells a string: only the tree with type `a`, subtype `b` and a parameter
/// without quotes spells `a/b;p=x` (RFC 7231, 3.1.1.1).
pub fn one_tree()
    ensures { OneTree }
{}

/// A string is read as at most one value: every reading of `Text/Plain` is `text/plain`.
pub fn one_reading()
    ensures { OneReading }
{}

/// A string is accepted or rejected: `a/b` is accepted, and `a` is rejected.
pub fn accepted_or_rejected()
    ensures { AcceptedOrRejected }
{}

/// The empty string is viable: `a/b` begins with it.
pub fn empty_is_viable()
    ensures { EmptyIsViable }
{}

/// A prefix of a viable string is viable: `a/b;p` is viable, since `a/b;p="` is.
pub fn prefix_of_viable_is_viable()
    ensures { PrefixOfViableIsViable }
{}

/// An accepted string is viable, as `a/b` is.
pub fn accepted_is_viable()
    ensures { AcceptedIsViable }
{}

/// A viable string that is rejected has exactly one of five faults: a missing slash, subtype, equals sign, value or
/// closing quote. Followed by the fault's completion, the string is accepted, as `a/b;p` followed by `=x` is.
pub fn one_completion()
    ensures { OneCompletion }
{}

/// A string is rejected if a slash, a subtype, an equals sign, a value or a closing quote is missing from it: `text/`
/// is rejected, since a subtype is missing.
pub fn completed_is_rejected()
    ensures { CompletedIsRejected }
{}

/// If a string isn't viable, every string that begins with it is rejected: `a b` isn't viable, so `a b/c` is rejected.
pub fn no_completion()
    ensures { NoCompletion }
{}

/// A rejected string has exactly one fault: the fault of `text/;` is its byte at position 5, counted from 0.
pub fn one_fault()
    ensures { OneFault }
{}

/// A string has exactly one longest viable prefix: `a/b` for `a/b c`.
pub fn one_longest_prefix()
    ensures { OneLongestPrefix }
{}

/// The longest viable prefix of a string of valid UTF-8 ends between characters: for `a/bé` it ends before the `é`.
pub fn prefix_ends_between_characters()
    ensures { PrefixEndsBetweenCharacters }
{}

/// The longest viable prefix of a string of valid UTF-8 is the same whether any bytes may complete it, or only bytes
/// that make it valid UTF-8: for `a/b;p="é` it is the whole string, since `a/b;p="éx"` is accepted.
pub fn prefix_is_in_utf8()
    ensures { PrefixIsInUtf8 }
{}

/// The plus of a value is the last plus of its essence after the subtype's first byte, if there is such a plus: the
/// plus of `a/b+c+d` is at position 5 (RFC 6838, 4.2.8).
pub fn plus_is_last()
    ensures { PlusIsLast }
{}

/// The kept text of a value that was read is read as the same value: `a/b;p=X`, the kept text of `A/B;P=X`, is read as
/// the value of `A/B;P=X`.
pub fn kept_is_read()
    ensures { KeptIsRead }
{}

/// The essence of a value that was read is read as this value without its parameters: `text/html` is read as the value
/// of `text/html; charset=utf-8` without its charset.
pub fn essence_is_read()
    ensures { EssenceIsRead }
{}

/// The essence of a value that was read is its type, a slash, its subtype, and, if there is a suffix, a plus and the
/// suffix: `image`, `/`, `svg` and `+xml` for `image/svg+xml` (RFC 6838, 4.2.8).
pub fn essence_is_parts()
    ensures { EssenceIsParts }
{}

/// Two values that were read have the same essence exactly if they have the same type, subtype and suffix, as `a/b+c;p=x` and `A/B+C` have.
pub fn same_essence()
    ensures { SameEssence }
{}

/// A value that was read is safe in a header (RFC 7230, 3.2). Each byte of its kept text is a tab, or a byte from 32 to
/// 255 except 127, so none is a line feed, a carriage return or 0. Its type, its subtype and its parameters' names are
/// tokens. Its suffix is a token or empty. Its parameters' values are quoted content, such as `x y` in `a/b; p="x y"`.
pub fn kept_is_safe()
    ensures { KeptIsSafe }
{}

/// The essence of a value that was read, followed by `; ` and a parameter with a quoted string, is read as this essence with only this
/// parameter: `a/b; P="X"` is read as `a/b` with the parameter `p`, whose value is `X` (RFC 7231, 3.1.1.1).
pub fn parameter_is_read()
    ensures { ParameterIsRead }
{}

/// Two values are equal, or exactly one of them is before the other: `a/b` is before `a/b;p=1`, which is before `a/c`.
pub fn one_order()
    ensures { OneOrder }
{}

/// If a first value is before a second, and the second is before a third, then the first is before the third: `a/b` is
/// before `a/c`, which is before `a/d`, so `a/b` is before `a/d`.
pub fn before_is_transitive()
    ensures { BeforeIsTransitive }
{}

/// A string equals a value without parameters exactly if the string in lowercase is the kept text: `Text/Plain` equals
/// the value `text/plain`, but `text/plain;` doesn't.
pub fn bare_text_is()
    ensures { BareTextIs }
{}

/// A value that was read is equal to another value exactly if its kept text is equal to the other value: `a/b;p=x`, the
/// kept text of `A/B;P=x`, is equal to the value of `a/b; p="x"`.
pub fn kept_text_is()
    ensures { KeptTextIs }
{}

/// A look-up in a list of parameters has at most one result: a value, or `None`. It has a result if the key either
/// accepts or rejects each name: `TextKey("P")` finds `1` in `a/b;p=1;p=2`, and nothing else.
pub fn one_answer<K: ParamKey>(key: &K)
    ensures most { OneAnswer (K.Accepts key.now) }
    ensures least { HasAnswer (K.Accepts key.now) }
{}

/// A key that is a string, a `TextKey` or a `Name` either accepts or rejects each name: `"P"` accepts `p` and rejects `q`.
pub fn keys_decide()
    ensures string { (key : Bor (List ℕ)) → IsDecided (⟦<&'static str as ParamKey>⟧.Accepts key) }
    ensures text { (key : TextKey) → IsDecided (⟦<TextKey<'static> as ParamKey>⟧.Accepts key) }
    ensures name { (key : Name) → IsDecided (⟦<Name<'static> as ParamKey>⟧.Accepts key) }
{}

/// Two values are equal exactly if they have the same essence and the same pairs, as `a/b; p="x"` and `A/B;P=x` have.
pub fn mime_equality()
    ensures { (first second : OwnedMedia) → IsTrue (⟦<Mime as PartialEq>⟧.eq first second) ↔ Same first.media second.media }
{}

/// The `Ordering` of two values says which is before the other, or that they are equal: `a/b` is less than `a/c`.
pub fn mime_order()
    ensures { (first second : OwnedMedia) → IsOrderOf first.media second.media (⟦<Mime as Ord>⟧.cmp first second) }
{}

/// Equal values feed a hasher the same bytes, as `a/b; p="x"` and `A/B;P=x` do.
pub fn equal_values_feed_the_same()
    ensures { RespectsEquality ⟦<Mime as Hash>⟧.hash_input }
{}

/// The bytes that values feed a hasher are prefix-free: the bytes of a value are never a prefix of the bytes of an unequal value. So a
/// tuple of a value and a string feeds bytes that no unequal tuple feeds: `a/bx` with `c` and `a/b` with `xc` feed different bytes.
pub fn hash_is_prefix_free()
    ensures { IsPrefixFree ⟦<Mime as Hash>⟧.hash_input }
{}

/// If two strings first differ, ignoring ASCII case, at two bytes other than space, tab and quote, they aren't read as equal values:
/// `a/b;p=x` and `A/B;P=y` aren't. Strings that first differ at a quote may be read as equal values, as `a/b;p=x` and `a/b;p="x"` are.
pub fn first_difference_decides()
    ensures { FirstDifferenceDecides }
{}

/// A string has exactly one cut: the cut of `a/b, e, c/d` has the items `a/b`, the bad piece `e`, and `c/d`.
pub fn one_cut()
    ensures { OneCut }
{}

/// Each item of a cut is the media type that its piece is read as, or a bad piece, which is viable, rejected and not empty. The rest after
/// the items is viable and rejected: the cut of `a/b, e, c` has the items `a/b` and the bad piece `e`, and the rest `c`.
pub fn cut_has_items()
    ensures { CutHasItems }
{}

/// A string consists of pieces, a character after each, and a last piece, which is accepted or the rest of the cut:
/// `e,a/b` consists of the piece `e`, a comma, and the last piece `a/b`.
pub fn cut_writes_text()
    ensures { CutWritesText }
{}

/// In a string of valid UTF-8, exactly one character is skipped after a piece: after `a/b` in `a/bé`, both bytes of `é` are skipped.
pub fn passes_one_character()
    ensures { PassesOneCharacter }
{}

/// The number of steps in which a string is cut is unique: `a/b,c/d` is cut in 7 steps, one per byte.
pub fn one_count()
    ensures { OneCount }
{}

/// Unless the text before a comma ends in an open quoted string, the comma ends a piece, and the text after the comma is
/// cut as a whole string: the cut of `e f, a/b` has the item `a/b`, as the cut of `a/b` has.
pub fn comma_contains()
    ensures { CommaContains }
{}

/// If the kept texts of values that were read are joined by a comma and a space, the cut of the joined text has exactly
/// these values: the cut of `a/b, c/d` has `a/b` and `c/d`.
pub fn joined_comes_back()
    ensures { JoinedComesBack }
{}

/// A list of accepted texts (RFC 7230, 7), without white space between an entry and the comma after it, is cut into exactly its entries.
/// Spaces, tabs and commas may precede the first entry and follow each comma: `a/b, ,\tc/d` is cut into `a/b` and `c/d`.
pub fn http_list_is_cut()
    ensures { HttpListIsCut }
{}

/// A run of a `MimeIter` yields the items of the remaining string's cut: over `a/b, e, c/d` it yields `a/b`, the bad piece
/// `e`, and `c/d`. In place of a media type whose kept text has more than 40 bytes, it may yield `NoMemory`, which ends the run.
pub fn run_gives_cut()
    ensures { RunGivesCut }
{}

/// Unless memory runs out, a run over a string with a comma outside quoted strings yields the items of the text before
/// the comma, then this text's rest as a bad piece if it isn't empty, then the items of the text after the comma: over
/// `e, c/d` it yields the bad piece `e` and `c/d`.
pub fn comma_contains_on_runs()
    ensures { CommaContainsOnRuns }
{}

/// If values that were read are printed, and joined by a comma and a space, a run over the joined string yields these
/// values unless memory runs out: over `a/b, c/d` it yields `a/b` and `c/d`.
pub fn printed_list_comes_back()
    ensures { PrintedListComesBack }
{}

/// Returns the constant names, in the order of `name_table`, with `*` first. Each name ignores case, and its text has no ASCII capital.
pub fn name_constants() -> [Name<'static>; 38]
    ensures texts { map name_text result ≡ name_table }
    ensures flags { IsTrue (list_all (λ name. name.ignores_case) result) }
    ensures low { map (λ name. lowered (name_text name)) result ≡ map name_text result }
{
    *&NAMES
}

/// Two names are equal exactly if their texts and their flags are: `TEXT` isn't equal to the name `text` whose flag is `false`.
pub fn name_equality()
    ensures { (first second : Name) → IsTrue (⟦<Name<'static> as PartialEq>⟧.eq first second)
        ↔ ((first.text.now ≡ second.text.now) × (first.ignores_case ≡ second.ignores_case)) }
{}

/// Names are ordered by the bytes of their texts, and then by their flags, `false` first: `HTML` is before `XML`.
pub fn name_order()
    ensures { (first second : Name) → ⟦<Name<'static> as Ord>⟧.cmp first second
        ≡ ordering_then (slice_cmp nat_cmp first.text.now second.text.now) (bool_cmp first.ignores_case second.ignores_case) }
{}

/// Names with the same text and flag feed a hasher the same bytes, as `TEXT` and the type of `Text/Plain` do.
pub fn equal_names_feed_the_same()
    ensures { (first second : Name) → first.text.now ≡ second.text.now → first.ignores_case ≡ second.ignores_case
        → ⟦<Name<'static> as Hash>⟧.hash_input first ≡ ⟦<Name<'static> as Hash>⟧.hash_input second }
{}

/// A name can always be cloned, and the clone has the same text and flag: the clone of `TEXT` is `TEXT`.
pub fn name_clone()
    ensures same { (name copy : Name) → ⟦<Name<'static> as Clone>⟧.is_clone name copy
        → (copy.text.now ≡ name.text.now) × (copy.ignores_case ≡ name.ignores_case) }
    ensures always { (name : Name) → ⟦<Name<'static> as Clone>⟧.is_infallible name }
{}

/// An `Atom`, a `ParseError`, a `Bad` and a `TextKey` can always be copied and cloned, and the copy is the same.
pub fn copies_are_same()
    ensures atom { (value copy : Atom) → ⟦<Atom as Clone>⟧.is_clone value copy → copy ≡ value }
    ensures atom_always { (value : Atom) → ⟦<Atom as Clone>⟧.is_infallible value }
    ensures fault { (value copy : ParseError) → ⟦<ParseError as Clone>⟧.is_clone value copy → copy ≡ value }
    ensures fault_always { (value : ParseError) → ⟦<ParseError as Clone>⟧.is_infallible value }
    ensures bad { (value copy : Bad) → ⟦<Bad<'static> as Clone>⟧.is_clone value copy → copy ≡ value }
    ensures bad_always { (value : Bad) → ⟦<Bad<'static> as Clone>⟧.is_infallible value }
    ensures key { (value copy : TextKey) → ⟦<TextKey<'static> as Clone>⟧.is_clone value copy → copy ≡ value }
    ensures key_always { (value : TextKey) → ⟦<TextKey<'static> as Clone>⟧.is_infallible value }
{}
