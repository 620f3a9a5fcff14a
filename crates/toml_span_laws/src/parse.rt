//! Laws about claims, about the result of `parse` for a text, and about typed reads of that result.
ghost use Rattle.std.specs.Prelude.{◌≡◌, ◌≢◌, ◌≤◌, ◌↔◌, ⊤, ◌*◌, ◌⊎◌, ◌++◌, ◌∷◌, ℕ, false, true, List, [], length};
ghost use Rattle.std.specs.Prelude.{slice_range, Option, Some, option_map, Result, Ok, Err, IsOk};
ghost use Rattle.toml_span_lex.specs.Bytes.{quotation_mark};
ghost use Rattle.toml_span_lex.specs.Strings.{HasChange};
ghost use Rattle.toml_span_lex.specs.declared.span.Span.{Span};
ghost use Rattle.toml_span_lex.specs.declared.stop.Stop.{Stop};
ghost use Rattle.toml_span_lex.specs.declared.stop.Stop.TheVariants.{Fault as refused};
ghost use Rattle.toml_span_tree.specs.Errors.{Errors};
ghost use Rattle.toml_span_typed.specs.TableHelper.{OpensTable, Refuses, Requires, State, Tries};
ghost use Rattle.toml_span_typed.specs.declared.de_helpers.table_helper.TableHelper.{TableHelper};
ghost use Rattle.toml_span_typed.specs.declared.de_helpers.table_helper.Unfinished.{Unfinished};
ghost use Rattle.toml_span_typed.specs.declared.de_helpers.table_helper.Unfinished.TheVariants.{Faults as unfinished};
ghost use Rattle.toml_span_typed.specs.declared.de_helpers.table_helper.Unfinished.TheVariants.{Memory as out_of_memory};
ghost use Rattle.std.specs.declared.alloc.AllocError.{AllocError};
ghost use Rattle.toml_span_laws.specs.Again.{ScalarReadsAgain};
ghost use Rattle.toml_span_read.specs.Data.{ParsedSection};
ghost use Rattle.toml_span_read.specs.Grammar.{SpellsDocument};
ghost use Rattle.toml_span_tree.specs.Node.{Node, Scalar, text as string};
ghost use Rattle.toml_span_tree.specs.Path.{Path, Place, shape_scalar, shape_table, key, node_at, place_at};
ghost use Rattle.toml_span_tree.specs.Pointer.{pointed};
ghost use Rattle.toml_span_tree.specs.Value.{is_taken, is_whole, view};
ghost use Rattle.toml_span_tree.specs.declared.error.Error.{Error};
ghost use Rattle.toml_span_tree.specs.declared.value.Value.{Value};
ghost use Rattle.toml_span.specs.Claims.{Claim, claims};
ghost use Rattle.toml_span.specs.Clashes.{NamedClash, Resolves};
ghost use Rattle.toml_span.specs.Flat.{ShowsExactly, all_claims, flat};
ghost use Rattle.toml_span.specs.Ordered.{HasOneEach, IsOrdered};
ghost use Rattle.toml_span_laws.specs.Moved.{AssignsBrackets, HasMovedPlaces, at_x, text_again};
ghost use Rattle.toml_span_laws.specs.Document.{HasPlaceAt, IsValueOf, PointsAt};
ghost use Rattle.toml_span_laws.specs.Helpers.{EndsWith, HasNoKeyBut, IsOver, RequiresAt, TriesAt, except};
ghost use Rattle.toml_span_laws.specs.Laws.{AssignsAgain, keys_in, ShowsString};
ghost use Rattle.toml_span_laws.specs.Order.{Ascends, key_at, KeysApart};
ghost use Rattle.toml_span_laws.specs.Outcomes.{IsAlike, HasOutcome, IsAnswerOf, Outcome, clashed, resolved};
ghost use Rattle.toml_span.specs.Parsing.{IsParseResult, IsTree};

pub mod clashes;

use crate::reading::reading_gives;
use toml_span_typed::Deserialize;

/// Unless an allocation fails, all results of `parse_with_limit` for the same text and limit agree: either all are
/// trees, which are equal as data, or all are errors, with the same contents.
#[tactic(auto, using(crate::proofs::Answered::alike))]
pub fn one_answer()
    ensures { (text : List ℕ) (limit : ℕ) (result other : Result Value (Stop Error)) → IsParseResult text limit result
        → IsParseResult text limit other → IsAlike result other }
{}

/// Within each depth limit, a text has exactly one outcome: sections that do not clash, sections and their first clash,
/// or a fault.
pub fn one_outcome(text: &str)
    ensures some { (limit : ℕ) → (outcome : Outcome) × HasOutcome text.now limit outcome }
    ensures one { (limit : ℕ) (outcome other : Outcome) → HasOutcome text.now limit outcome
        → HasOutcome text.now limit other → outcome ≡ other }
{
    reading_gives(text);
}

/// A text that has no fault within the depth limit `limit` has the same outcome within any higher limit: the same
/// sections, without a clash or with the same first clash.
pub fn outcome_within_wider()
    ensures resolved { (text : List ℕ) (limit wider : ℕ) (sections : List ParsedSection) → limit ≤ wider
        → HasOutcome text limit (resolved sections) → HasOutcome text wider (resolved sections) }
    ensures clashed { (text : List ℕ) (limit wider : ℕ) (sections : List ParsedSection) (clash : NamedClash)
        → limit ≤ wider → HasOutcome text limit (clashed sections clash)
        → HasOutcome text wider (clashed sections clash) }
{}

/// The outcome of a text determines what `parse_with_limit` returns, unless an allocation fails: the tree of the
/// outcome's sections, or the error for its clash or fault.
#[tactic(auto, using(crate::proofs::Answered::decides))]
pub fn outcome_decides()
    ensures { (text : List ℕ) (limit : ℕ) (outcome : Outcome) (result : Result Value (Stop Error))
        → HasOutcome text limit outcome → IsParseResult text limit result → IsAnswerOf text outcome result }
{}

/// In a tree that shows the flat document of some sections, no path leads to a value that has been taken. If, besides,
/// no name occurs twice in a table, paths lead to all values, so the tree is whole.
pub fn shown_is_whole()
    ensures filled { (n : Node) (length : ℕ) (sections : List ParsedSection)
        → ShowsExactly n (flat length (claims sections))
        → (path : Path) (m : Node) → node_at path n ≡ Some m → is_taken m ≡ false }
    ensures whole { (n : Node) (length : ℕ) (sections : List ParsedSection) → HasOneEach n
        → ShowsExactly n (flat length (claims sections))
        → is_whole n ≡ true }
{}

/// If the names in each table of a tree ascend, no name occurs twice in a table.
pub fn ordered_has_one_each()
    ensures { (n : Node) → IsOrdered n → HasOneEach n }
{}

/// In a document within the depth limit `limit`, a path has at most `2 * limit` keys (as many as a header and an
/// assignment may have together) and at most `3 * limit` steps. The same holds for the paths of its tree.
pub fn paths_within()
    ensures keys { (text : List ℕ) (limit n : ℕ) (sections : List ParsedSection) (path : Path) (place : Place)
        → SpellsDocument sections text limit → flat n (claims sections) path ≡ Some place → keys_in path ≤ 2 * limit }
    ensures steps { (text : List ℕ) (limit n : ℕ) (sections : List ParsedSection) (path : Path) (place : Place)
        → SpellsDocument sections text limit → flat n (claims sections) path ≡ Some place → length path ≤ 3 * limit }
    ensures tree { (text : List ℕ) (limit : ℕ) (root : Value) (path : Path) (m : Node) → IsTree text limit root
        → node_at path (view root) ≡ Some m → (keys_in path ≤ 2 * limit) × (length path ≤ 3 * limit) }
{}

/// The claims of a document, including those inside arrays and inline tables, are in the order of the text: each starts
/// after the one before it, except that an array of tables and its element are claimed by the same key.
pub fn claims_ascend()
    ensures { (text : List ℕ) (limit : ℕ) (sections : List ParsedSection) → SpellsDocument sections text limit
        → Ascends (all_claims (claims sections)) }
{}

/// No two keys of the flat document, or of the tree, start at the same offset. So the keys of two names in the same
/// table start at different offsets.
pub fn key_starts_differ()
    ensures flat { (text : List ℕ) (limit n : ℕ) (sections : List ParsedSection) → SpellsDocument sections text limit
        → KeysApart (flat n (claims sections)) }
    ensures names { (text : List ℕ) (limit n : ℕ) (sections : List ParsedSection) (path : Path) (a b : List ℕ)
        (k l : Span)
        → SpellsDocument sections text limit → key_at (flat n (claims sections)) (path ++ (key a ∷ [])) ≡ Some k
        → key_at (flat n (claims sections)) (path ++ (key b ∷ [])) ≡ Some l → a ≢ b → k.start ≢ l.start }
    ensures tree { (text : List ℕ) (limit : ℕ) (root : Value) → IsTree text limit root
        → KeysApart (λ path. place_at path (view root)) }
{}

/// The text at the span of each number, boolean, date and time in a document, or in its tree, spells that value again:
/// `x = ` followed by this text is a document with one assignment of that value.
pub fn scalars_read_again()
    ensures flat { (text : List ℕ) (limit n : ℕ) (sections : List ParsedSection) (path : Path) (place : Place)
        (s : Scalar)
        → SpellsDocument sections text limit → flat n (claims sections) path ≡ Some place → place.shape ≡ shape_scalar s
        → ScalarReadsAgain text limit s place.span }
    ensures tree { (text : List ℕ) (limit : ℕ) (root : Value) (path : Path) (place : Place) (s : Scalar)
        → IsTree text limit root → place_at path (view root) ≡ Some place → place.shape ≡ shape_scalar s
        → ScalarReadsAgain text limit s place.span }
{}

/// In a document, and in its tree, the span of a string is the text between the quotes, without a line end directly
/// after three opening quotes, and the value is what that text denotes. The span of an empty single-line string is its
/// first quote instead. If the text at the span has neither backslashes nor carriage returns, the value is that text,
/// or is empty.
pub fn strings_show_the_text()
    ensures flat { (text : List ℕ) (limit n : ℕ) (sections : List ParsedSection) (path : Path) (place : Place)
        (value : List ℕ)
        → SpellsDocument sections text limit → flat n (claims sections) path ≡ Some place
        → place.shape ≡ shape_scalar (string value) → ShowsString text value place.span }
    ensures tree { (text : List ℕ) (limit : ℕ) (root : Value) (path : Path) (place : Place) (value : List ℕ)
        → IsTree text limit root → place_at path (view root) ≡ Some place → place.shape ≡ shape_scalar (string value)
        → ShowsString text value place.span }
    ensures unchanged { (text : List ℕ) (limit : ℕ) (root : Value) (path : Path) (place : Place) (value : List ℕ)
        → IsTree text limit root → place_at path (view root) ≡ Some place → place.shape ≡ shape_scalar (string value)
        → (HasChange quotation_mark text place.span.start place.span.end → ⊥)
        → (value ≡ []) ⊎ (value ≡ slice_range text place.span.start place.span.end) }
{}

/// The text at the span of an assigned array, inline table or scalar other than a string spells that value again. The
/// claims that are made inside the value come directly after its own claim.
pub fn brackets_read_again()
    ensures { (text : List ℕ) (limit : ℕ) (sections : List ParsedSection) → SpellsDocument sections text limit
        → AssignsAgain text limit (claims sections) }
{}

/// An array in brackets or an inline table does not depend on its context. Its claim determines the place at its path.
/// `x = ` followed by the text at its span is a document without clashes. In that document, the places at `/x` and
/// below are those at the old path and below: they have the same kinds, keys and values, and their spans, also those of
/// keys, are moved with the text. The same holds for the trees of the two texts.
pub fn bracketed_values_read_again()
    ensures place { (text : List ℕ) (limit n : ℕ) (sections : List ParsedSection) (c : Claim)
        → SpellsDocument sections text limit
        → Resolves (claims sections) → AssignsBrackets sections c → flat n (claims sections) c.path ≡ Some c.place }
    ensures document { (text : List ℕ) (limit : ℕ) (sections : List ParsedSection) (c : Claim)
        → SpellsDocument sections text limit
        → Resolves (claims sections) → AssignsBrackets sections c
        → (again : List ParsedSection) × HasOutcome (text_again text c.place.span) limit (resolved again)
        × HasMovedPlaces c.place.span.start 4 (flat (length text) (claims sections)) c.path
        (flat (length (text_again text c.place.span)) (claims again)) at_x }
    ensures tree { (text : List ℕ) (limit : ℕ) (root other : Value) (sections : List ParsedSection) (c : Claim)
        → SpellsDocument sections text limit → IsTree text limit root → AssignsBrackets sections c
        → IsTree (text_again text c.place.span) limit other
        → HasMovedPlaces c.place.span.start 4 (λ path. place_at path (view root)) c.path
        (λ path. place_at path (view other)) at_x }
{}

/// If two values have the same place at each path, and the names in each of their tables ascend, the values are equal.
/// So the flat document determines the tree of a text, and everything that is computed from the tree, such as its JSON
/// value.
pub fn one_tree()
    ensures value { (places : Path → Option Place) (n m : Node) → IsValueOf places n → IsValueOf places m → n ≡ m }
    ensures document { (text : List ℕ) (limit : ℕ) (root : Value) (sections : List ParsedSection)
        → IsTree text limit root
        → SpellsDocument sections text limit → IsValueOf (flat (length text) (claims sections)) (view root) }
{}

/// In the tree that `parse` returns for a text, a pointer names a value if and only if its segments name a path at
/// which the flat document has a place. The value is the one that shows the places there and below.
pub fn pointers_name_places()
    ensures some { (text : List ℕ) (limit : ℕ) (root : Value) (sections : List ParsedSection) (pointer : List ℕ)
        → IsTree text limit root → SpellsDocument sections text limit
        → ((m : Node) × (pointed pointer (view root) ≡ Some m))
        ↔ HasPlaceAt pointer (flat (length text) (claims sections)) (λ _. ⊤) }
    ensures value { (text : List ℕ) (limit : ℕ) (root : Value) (sections : List ParsedSection) (pointer : List ℕ)
        (m : Node)
        → IsTree text limit root → SpellsDocument sections text limit
        → (pointed pointer (view root) ≡ Some m) ↔ PointsAt pointer (flat (length text) (claims sections)) m }
{}

/// `TableHelper::new` succeeds on a value if and only if the flat document has a table at the path of the value. The
/// helper has the entries of that table.
pub fn helper_opens_on_a_table()
    ensures some { (places : Path → Option Place) (m : Node) → IsValueOf places m → ((s : State) × OpensTable m (Ok s))
        ↔ (option_map (λ x. x.shape) (places []) ≡ Some shape_table) }
    ensures over { (places : Path → Option Place) (m : Node) (s : State) → IsValueOf places m → OpensTable m (Ok s)
        → IsOver places s × (s.asked ≡ []) × (s.errors ≡ []) }
{}

/// `required` reads the value that shows the places of the flat document at the key and below. If the flat document has
/// no place at the key, or the key was asked for before, `required` fails with `MissingField` for the key, unless an
/// allocation fails. Afterwards, the helper has the entries of the same table, except those that were asked for.
pub fn required_reads_the_document<'de, T: Deserialize<'de>>()
    ensures reads { (places : Path → Option Place) (name : List ℕ) (before after : State)
        (answer : Result T (Stop Error)) → IsOver places before → Requires T.reads name before answer after
        → RequiresAt T.reads name (except before.asked places) before answer after }
    ensures over { (places : Path → Option Place) (name : List ℕ) (before after : State)
        (answer : Result T (Stop Error)) → IsOver places before → Requires T.reads name before answer after
        → IsOver places after }
{}

/// `optional` reads the value that shows the places of the flat document at the key and below. Unless an allocation
/// fails, it returns `None` without keeping an error if and only if the flat document has no place at the key or the
/// key was asked for before. Afterwards, the helper has the entries of the same table, except those asked for.
pub fn optional_reads_the_document<'de, T: Deserialize<'de>>()
    ensures reads { (places : Path → Option Place) (name : List ℕ) (before after : State)
        (answer : Result (Option T) AllocError) → IsOver places before → Tries T.reads name before answer after
        → TriesAt T.reads name (except before.asked places) before answer after }
    ensures over { (places : Path → Option Place) (name : List ℕ) (before after : State)
        (answer : Result (Option T) AllocError) → IsOver places before → Tries T.reads name before answer after
        → IsOver places after }
{}

/// `finalize(None)` returns `Ok` if and only if no error was kept, and the flat document's table has only keys that
/// were asked for. Otherwise the errors are those that were kept, and then, if there are other keys, the error for
/// these. An allocation can fail only if there are other keys.
pub fn finalize_ends_the_table()
    ensures ok { (places : Path → Option Place) (s : State) (answer : Result (Unit {0}) Unfinished) → IsOver places s
        → Refuses s answer → IsOk answer ↔ ((s.errors ≡ []) × HasNoKeyBut s.asked places) }
    ensures faults { (places : Path → Option Place) (s : State) (faults : Errors) → IsOver places s
        → Refuses s (Err (unfinished faults)) → EndsWith places s faults }
    ensures memory { (places : Path → Option Place) (s : State) (helper : TableHelper) → IsOver places s
        → Refuses s (Err (out_of_memory helper)) → HasNoKeyBut s.asked places → ⊥ }
{}
