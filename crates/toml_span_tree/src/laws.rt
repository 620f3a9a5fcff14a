//! Laws: facts about the definitions, stated as contracts of functions that do nothing. Each `/` of a pointer begins a
//! segment: `/a/b` has the segments `a` and `b`.
ghost use Rattle.std.specs.Prelude.{◌≡◌, ◌↔◌, ◌<◌, ◌^◌, ℕ, List, [], Some, IsTrue, true, false, decimal};
ghost use Rattle.toml_span_tree.specs.Node.{Node};
ghost use Rattle.toml_span_tree.specs.Path.{Path, Place, shape_of, place_at, node_at, put, BeginsWith};
ghost use Rattle.toml_span_tree.specs.Pointer.{position_of, IsPointed, pointed, put_pointed, pointers_diverge};
ghost use Rattle.toml_span_tree.specs.Date.{IsDateText, IsDateOrTime};
ghost use Rattle.toml_span_tree.specs.declared.date.DateText.{DateText};
ghost use Rattle.toml_span_tree.specs.declared.float.FloatText.{FloatText};
ghost use Rattle.toml_span_tree.specs.Value.{inner_of, span_of, is_taken, date_bytes, float_value};

use crate::date::DateText;
use crate::float::FloatText;

/// A text is a date text if and only if it is one of these: a date; a time; or a date, a separator, a time and
/// optionally a time offset.
pub fn date_texts()
    ensures { (text : List ℕ) → IsDateText text ↔ IsDateOrTime text }
{}

/// Two date texts are equal if and only if their bytes are.
pub fn equal_dates()
    ensures { (x y : DateText)
        → IsTrue (⟦<DateText<'static> as PartialEq>⟧.eq x y) ↔ (date_bytes x ≡ date_bytes y) }
{}

/// Two floats are equal if and only if both are finite with the same text, both are infinite with the same sign, or
/// both are NaN with the same sign.
pub fn equal_floats()
    ensures { (x y : FloatText)
        → IsTrue (⟦<FloatText as PartialEq>⟧.eq x y) ↔ (float_value x ≡ float_value y) }
{}

/// If there is a value at a path, and another value is put there, then the new value is at that path.
pub fn put_is_found()
    ensures { (path : Path) (n m w : Node) → node_at path n ≡ Some m → node_at path (put path w n) ≡ Some w }
{}

/// A value that replaces an old value keeps its own kind and span and, if it is a scalar, its content. Its key has the
/// span of the old value's key.
pub fn put_keeps_the_key()
    ensures { (path : Path) (n w : Node) (p : Place) → place_at path n ≡ Some p
        → place_at path (put path w n)
        ≡ Some (record { shape = shape_of (inner_of w); key_span = p.key_span; span = span_of w }) }
{}

/// If a value is put at `path`, then at each path that does not begin with `path`, the kind and the spans are the same
/// as before, and so is the content of a scalar.
pub fn put_keeps_the_rest()
    ensures { (path other : Path) (n w : Node) → (BeginsWith path other → ⊥)
        → place_at other (put path w n) ≡ place_at other n }
{}

/// A pointer finds a value if and only if its segments name the steps of the value's path, and the path is empty or the
/// value's content has not been taken.
pub fn pointer_names_a_path()
    ensures { (pointer : List ℕ) (n m : Node) → (pointed pointer n ≡ Some m) ↔ IsPointed pointer n m }
{}

/// A segment denotes a position below 2^64 if and only if it is the decimal form of that position.
pub fn positions_are_decimal()
    ensures { (i : ℕ) (segment : List ℕ) → i < 2 ^ 64 → (position_of segment ≡ Some i) ↔ (segment ≡ decimal i) }
{}

/// The empty pointer finds the value at which the look-up starts, even if its content has been taken.
pub fn empty_pointer()
    ensures { (n : Node) → pointed [] n ≡ Some n }
{}

/// If a pointer finds a value, and a new value replaces it, then the pointer finds the new value, provided that the
/// content of the new value has not been taken.
pub fn pointer_names_what_was_put()
    ensures { (pointer : List ℕ) (n m w : Node) → is_taken w ≡ false → pointed pointer n ≡ Some m
        → pointed pointer (put_pointed pointer w n) ≡ Some w }
{}

/// Suppose that, for some n, two pointers have different n-th segments. Then replacing the value that one of the
/// pointers finds changes nothing for the other: it finds the same value as before, or again none.
pub fn other_pointers_keep()
    ensures { (pointer other : List ℕ) (n m w : Node) → pointed pointer n ≡ Some m
        → pointers_diverge pointer other ≡ true → pointed other (put_pointed pointer w n) ≡ pointed other n }
{}
