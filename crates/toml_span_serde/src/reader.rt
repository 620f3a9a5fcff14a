//! A `Format` of serde that reads a tree piece by piece. A piece is a scalar, a taken value, a key, or the beginning or
//! end of an array or table.
ghost use Rattle.std.specs.Float.{binary32, binary64};
ghost use Rattle.std.specs.Option.{option_and_then};
ghost use Rattle.std.specs.Prelude.{◌≡◌, ◌+◌, ◌-◌, ◌<◌, ◌≤◌, ◌^◌, ◌∷◌, ◌++◌, ◌↔◌, ◌||◌, [], false, true, not, IfErr};
ghost use Rattle.std.specs.Prelude.{IfOk, IsOk, IsTrue, List, MatchBool, MatchOption, None, Ok, OnOk, drop, length};
ghost use Rattle.std.specs.Prelude.{map, nat_lt, slice_get, slice_range, string_bytes, take};
ghost use Rattle.serde.specs.Event as event;
ghost use Rattle.toml_span_lex.specs.declared.stop.Stop.TheVariants as stop;
ghost use Rattle.toml_span_tree.specs.Node.{Node, integer};
ghost use Rattle.toml_span_serde.specs.Ahead.{ahead, laid};
ghost use Rattle.toml_span_serde.specs.Asks.{AsksEnd, AsksStart};
ghost use Rattle.toml_span_serde.specs.Misreads.{IsAnyBoolean, IsAnyInteger, IsAnyNumber, IsAnyText, IsAnyWritten};
ghost use Rattle.toml_span_serde.specs.Misreads.{IsKeyOrEnd, IsMemory, IsMisread, IsNegative, IsNotAtItsSpan};
ghost use Rattle.toml_span_serde.specs.Misreads.{IsNotOneCharacter, IsOpening, IsOther, IsOtherIn, IsUnreadable};
ghost use Rattle.toml_span_serde.specs.Misreads.{Lists, Misses, MissesOr, RunsOut, Says, UnlessMemory, fields};
ghost use Rattle.toml_span_serde.specs.Misreads.{found_of, held, held_by, is_unknown, kept, kind_ahead, length_reason};
ghost use Rattle.toml_span_serde.specs.Misreads.{aliased_key, aliased_key_after, duplicate_place, piece_text_in};
ghost use Rattle.toml_span_serde.specs.Misreads.{refusal_in, tries_back_at, variant_names, variant_place, variants};
ghost use Rattle.toml_span_serde.specs.Pieces.{Piece as Laid, array_begins, pieces, table_begins, value};
ghost use Rattle.toml_span_serde.specs.Reads.{IsText, Picks, Reads, Sees, TakesPiece};
ghost use Rattle.toml_span_serde.specs.Tasks.{piece_content, piece_of};
ghost use Rattle.toml_span_serde.specs.Tried.{kinds_at, missed, tries};
ghost use Rattle.toml_span_serde.specs.declared.misfit.Expected.TheVariants as expected;
ghost use Rattle.toml_span_serde.specs.declared.misfit.Found.TheVariants as found;
ghost use Rattle.toml_span_serde.specs.declared.misfit.Reason.TheVariants as is;

use crate::misfit::{Expected, Found, Reason};
use crate::names::{all_forms, copied, forms_of};
use crate::path::elements_in;
use crate::pieces::{Content, Piece, count_value};
use crate::spanned::{END, START};
use crate::tried::Tried;
use crate::twice::{KeyPlace, earlier};
use serde::{Format, Kind, Name, find};
use std::alloc::{AllocError, Global};
use std::num::{nearest_i64_to_f32, nearest_i64_to_f64};
use toml_span_lex::span::Span;
use toml_span_lex::stop::Stop;

/// Why a read failed, and the position of the piece at which it failed.
#[derive(Debug, Drop)]
pub struct Misread {
    pub(crate) reason: Reason,
    pub(crate) at: usize,
}

/// Reads a tree piece by piece, for serde. `Row` makes readers.
#[derive(Drop)]
pub struct Reader<'p, 'v> {
    alloc: Global,
    pieces: &'p [Piece<'v>],
    /// The position of the next piece.
    next: usize,
    /// The position of the piece that was looked at last or, after `rewind`, of the next piece.
    at: usize,
    /// The position that `next` had when the function `variant` was last called.
    variant_at: usize,
    /// Whether the piece that was looked at last was read as a key and has none of the expected names.
    is_unknown: bool,
    /// The names and aliases with which the last unknown key was compared.
    fields: Vec<String>,
    /// The names and aliases with which the last unknown variant was compared.
    variants: Vec<String>,
    /// The last key that named a field with aliases.
    key: KeyPlace,
    /// The name and aliases of the field that `key` names.
    forms: Vec<String>,
    /// The failed attempts to read a piece.
    tried: Tried,
}

impl<'p, 'v> Reader<'p, 'v> {
    /// Returns a reader at the first piece.
    pub(crate) fn new(alloc: Global, pieces: &'p [Piece<'v>]) -> Reader<'p, 'v>
        ensures { ahead result ≡ map piece_of pieces.now }
    {
        Reader {
            alloc,
            pieces,
            next: 0,
            at: 0,
            variant_at: 0,
            is_unknown: false,
            fields: Vec::new(alloc),
            variants: Vec::new(alloc),
            key: KeyPlace {
                at: 0,
                span: Span::default(),
            },
            forms: Vec::new(alloc),
            tried: Tried::new(alloc),
        }
    }

    /// Returns the next piece without reading it. Fails if no piece is left.
    fn look(&mut self) -> Result<Piece<'v>, Stop<Misread>>
        ensures next { IfOk result (λ p. ahead self.old
            ≡ piece_of p ∷ map piece_of (drop (self.old.next + 1) self.old.pieces.now)) }
        ensures inside { OnOk result (self.old.next < length self.old.pieces.now) }
        ensures small { OnOk result (self.old.next < 2 ^ 64 - 1) }
        ensures none { IfErr result (RunsOut self.old) }
        ensures stays { (self.new.next ≡ self.old.next) × (self.new.pieces ≡ self.old.pieces) }
        ensures notes { (self.new.at ≡ self.old.next) × (self.new.variant_at ≡ self.old.variant_at)
            × (self.new.is_unknown ≡ false) }
        ensures kept { kept self.new ≡ kept self.old }
        ensures tried { self.new.tried ≡ self.old.tried }
    {
        self.at = self.next;
        self.is_unknown = false;
        match self.pieces.get(self.next) {
            Some(piece) => Ok(*piece),
            None => Err(self.misread(Reason::Invalid)),
        }
    }

    /// Reads the next piece. Fails if no piece is left.
    fn take(&mut self) -> Result<Piece<'v>, Stop<Misread>>
        ensures next { IfOk result (λ p. ahead self.old ≡ piece_of p ∷ ahead self.new) }
        ensures none { IfErr result (RunsOut self.old) }
        ensures notes { (self.new.at ≡ self.old.next) × (self.new.variant_at ≡ self.old.variant_at)
            × (self.new.is_unknown ≡ false) }
        ensures kept { kept self.new ≡ kept self.old }
        ensures tried { self.new.tried ≡ self.old.tried }
    {
        let piece = self.look()?;
        self.next += 1;
        Ok(piece)
    }

    /// Returns an error with this reason at the position `self.at`.
    fn misread(&self, reason: Reason) -> Stop<Misread>
        ensures { result ≡ stop.Fault (record { reason = reason; at = self.now.at }) }
    {
        Stop::Fault(Misread {
            reason,
            at: self.at,
        })
    }

    /// Returns copies of the text of the piece at the position `at` (see `text_at`) and of `names`.
    fn named(&self, at: usize, names: &[String]) -> Result<(String, Vec<String>), AllocError>
        ensures { IfOk result (λ error. (string_bytes error.0 ≡ piece_text_in (slice_get (laid self.now) at))
            × (map string_bytes error.1.items ≡ map string_bytes names.now)) }
    {
        let name = String::from_str(self.alloc, self.text_at(at))?;
        Ok((name, copied(self.alloc, names)?))
    }

    /// Returns the position to report for an unknown variant: `self.at` if the piece there is an unknown key, otherwise
    /// `self.variant_at`.
    fn variant_place(&self) -> usize
        ensures { result ≡ variant_place self.now }
    {
        if self.is_unknown {
            self.at
        } else {
            self.variant_at
        }
    }

    /// Returns the names and aliases with which an unknown variant was compared.
    fn variant_names(&self) -> &[String]
        ensures { map string_bytes result.now ≡ variant_names self.now }
    {
        if self.is_unknown {
            self.fields.as_slice()
        } else {
            self.variants.as_slice()
        }
    }

    /// Returns the pieces before the position `at`, or all pieces if there are fewer than `at`.
    fn before(&self, at: usize) -> &[Piece<'v>]
        ensures { map piece_of result.now ≡ take at (laid self.now) }
    {
        self.pieces.get(..at).unwrap_or(self.pieces)
    }

    /// Looks for a key before `self.key` that names the same field in the same table. If there is one, returns the
    /// position of whichever of the two keys is later in the text, and the span of the other key. Otherwise, returns
    /// `self.at` and `None`.
    fn duplicate_place(&self) -> (usize, Option<Span>)
        ensures { result ≡ duplicate_place self.now }
    {
        let key = self.key;
        match earlier(self.before(key.at), self.forms.as_slice()) {
            Some(other) if key.span.start < other.span.start => (other.at, Some(key.span)),
            Some(other) => (key.at, Some(other.span)),
            None => (self.at, None),
        }
    }

    /// Records what later errors need of the key at `self.at`. `span` is the span of the key, and `found` is the
    /// position of the key's name in `names`. If the name has aliases, records the key, its name and the aliases. If
    /// `found` is out of range, the key is unknown, and `all_forms(names)` is recorded.
    fn note_key(
        &mut self,
        span: Span,
        names: &[Name<'_>],
        found: usize,
    ) -> Result<(), Stop<Misread>>
        ensures stays { ahead self.new ≡ ahead self.old }
        ensures notes { OnOk result ((self.new.at ≡ self.old.at) × (self.new.variant_at ≡ self.old.variant_at)
            × (self.new.is_unknown ≡ (self.old.is_unknown || not (nat_lt found (length names.now))))) }
        ensures fields { OnOk result (fields self.new ≡ held names.now found (fields self.old)) }
        ensures aliased_key { OnOk result (aliased_key self.new
            ≡ aliased_key_after (slice_get names.now found) (self.old.at, span) (aliased_key self.old)) }
        ensures variants { variants self.new ≡ variants self.old }
        ensures memory { IfErr result IsMemory }
    {
        match names.get(found) {
            None => {
                self.is_unknown = true;
                self.fields = owned(all_forms(self.alloc, names))?;
            }
            Some(name) if !name.aliases.is_empty() => {
                self.key = KeyPlace { at: self.at, span };
                self.forms = owned(forms_of(self.alloc, name))?;
            }
            Some(_) => {}
        }
        Ok(())
    }

    /// Prepares to go back to the position `mark`. Unless the reader is at `mark`, records that an attempt has read the
    /// piece there and failed later.
    fn note_back(&mut self, mark: usize)
        ensures stays { self.new ≡ record self.old { tried = self.new.tried } }
        ensures tried { tries self.new.tried ≡ tries_back_at mark self.old }
    {
        if self.next == mark {
            return;
        }
        self.tried.note_read(mark);
    }

    /// Goes back to the piece that was looked at last, whose content is `found`, and records that the kind `expected`
    /// was expected there. Returns the error `Wanted`.
    fn wanted(&mut self, expected: Expected, found: Content<'_>) -> Stop<Misread>
        ensures reported { IsMisread (λ why. why ≡ is.Wanted expected (found_of (piece_content found.entry)))
            self.old.at result }
        ensures stays { (self.new.next ≡ self.old.at) × (self.new.pieces ≡ self.old.pieces) }
        ensures notes { (self.new.at ≡ self.old.at) × (self.new.variant_at ≡ self.old.variant_at)
            × (self.new.is_unknown ≡ self.old.is_unknown) }
        ensures kept { kept self.new ≡ kept self.old }
        ensures tried { UnlessMemory result
            (tries self.new.tried ≡ missed self.old.at expected (tries self.old.tried)) }
    {
        self.next = self.at;
        match self.tried.miss(self.at, expected) {
            Ok(()) => self.misread(Reason::Wanted {
                expected,
                found: found.kind(),
            }),
            Err(e) => Stop::Memory(e),
        }
    }

    /// Returns the error for the piece that was looked at last, which is of the kind `found`. The error lists the
    /// expected kinds that `tried` has for this piece. If `tried` has none, the error is `Unexpected`.
    fn other(&self, found: Found) -> Stop<Misread>
        ensures { IsMisread (IsOther (kinds_at self.now.at (tries self.now.tried)) found) self.now.at result }
    {
        match self.tried.kinds_at(self.at) {
            [] => self.misread(Reason::Unexpected(found)),
            [expected] => self.misread(Reason::Wanted {
                expected: *expected,
                found,
            }),
            kinds => match Vec::from_slice(self.alloc, kinds) {
                Ok(expected) => self.misread(Reason::WantedOneOf { expected, found }),
                Err(e) => Stop::Memory(e),
            },
        }
    }

    /// Returns the text of the piece at the position `at` if it is a string or key, otherwise an empty text.
    fn text_at(&self, at: usize) -> &'v str
        ensures { result.now ≡ piece_text_in (slice_get (laid self.now) at) }
    {
        match self.pieces.get(at) {
            Some(piece) => piece.content.text(),
            None => "",
        }
    }

    /// Reads a string or key, and returns its text. If the next piece is neither a string nor a key, fails with
    /// `Wanted`, which names `expected`. Also fails if no piece is left.
    fn text(&mut self, expected: Expected) -> Result<&'v str, Stop<Misread>>
        ensures text { IfOk result (λ text. TakesPiece (IsText text.now) (ahead self.old) (ahead self.new)) }
        ensures misses { IfErr result (IsMisread (Misses IsAnyText expected (ahead self.old)) self.old.next) }
        ensures notes { (self.new.at ≡ self.old.next) × (self.new.variant_at ≡ self.old.variant_at)
            × (self.new.is_unknown ≡ false) }
        ensures kept { kept self.new ≡ kept self.old }
    {
        match self.take()?.content {
            Content::Text(text) | Content::Key(text) => Ok(text),
            found => Err(self.wanted(expected, found)),
        }
    }

    /// Reads an integer. Fails with `Wanted` if the next piece is not an integer. Also fails if no piece is left.
    fn integer(&mut self) -> Result<i64, Stop<Misread>>
        ensures integer { IfOk result (λ z. TakesPiece (λ c. c ≡ value (integer z)) (ahead self.old) (ahead self.new)) }
        ensures misses { IfErr result (IsMisread (Misses IsAnyInteger expected.Integer (ahead self.old))
            self.old.next) }
        ensures at { self.new.at ≡ self.old.next }
    {
        match self.take()?.content {
            Content::Integer(number) => Ok(number),
            found => Err(self.wanted(Expected::Integer, found)),
        }
    }
}

impl Format for Reader<'_, '_> {
    type Error = Stop<Misread>;

    type Mark = usize;

    ghost gives = { λ old _ e new. Reads (ahead old) e (ahead new) };

    ghost picks = { λ old _ is_key names at new. Picks (ahead old) is_key names at (ahead new) };

    ghost stays = { λ old new. ahead new ≡ ahead old };

    fn bool(&mut self, _input: &[u8]) -> Result<bool, Stop<Misread>>
        ensures gives { IfOk result (λ b. Reads (ahead self.old) (event.boolean b) (ahead self.new)) }
        ensures misses { IfErr result (IsMisread (Misses IsAnyBoolean expected.Boolean (ahead self.old))
            self.old.next) }
    {
        match self.take()?.content {
            Content::Boolean(truth) => Ok(truth),
            found => Err(self.wanted(Expected::Boolean, found)),
        }
    }

    fn i64(&mut self, _input: &[u8]) -> Result<i64, Stop<Misread>>
        ensures gives { IfOk result (λ z. Reads (ahead self.old) (event.signed z) (ahead self.new)) }
        ensures misses { IfErr result (IsMisread (Misses IsAnyInteger expected.Integer (ahead self.old))
            self.old.next) }
    {
        self.integer()
    }

    fn u64(&mut self, _input: &[u8]) -> Result<u64, Stop<Misread>>
        ensures gives { IfOk result (λ n. Reads (ahead self.old) (event.unsigned n) (ahead self.new)) }
        ensures misses { IfErr result (IsMisread
            (MissesOr IsAnyInteger expected.Integer IsNegative is.Negative (ahead self.old)) self.old.next) }
    {
        let number = self.integer()?;
        match u64::try_from(number) {
            Ok(number) => Ok(number),
            Err(_) => Err(self.misread(Reason::Negative)),
        }
    }

    fn i128(&mut self, _input: &[u8]) -> Result<i128, Stop<Misread>>
        ensures gives { IfOk result (λ z. Reads (ahead self.old) (event.signed z) (ahead self.new)) }
        ensures misses { IfErr result (IsMisread (Misses IsAnyInteger expected.Integer (ahead self.old))
            self.old.next) }
    {
        Ok(i128::from(self.integer()?))
    }

    fn u128(&mut self, _input: &[u8]) -> Result<u128, Stop<Misread>>
        ensures gives { IfOk result (λ n. Reads (ahead self.old) (event.unsigned n) (ahead self.new)) }
        ensures misses { IfErr result (IsMisread
            (MissesOr IsAnyInteger expected.Integer IsNegative is.Negative (ahead self.old)) self.old.next) }
    {
        let number = self.integer()?;
        match u128::try_from(number) {
            Ok(number) => Ok(number),
            Err(_) => Err(self.misread(Reason::Negative)),
        }
    }

    fn f32(&mut self, _input: &[u8]) -> Result<f32, Stop<Misread>>
        ensures gives { IfOk result (λ x. Reads (ahead self.old) (event.single x) (ahead self.new)) }
        ensures misses { IfErr result (IsMisread
            (MissesOr IsAnyNumber expected.Float (IsUnreadable binary32) is.Invalid (ahead self.old)) self.old.next) }
    {
        match self.take()?.content {
            Content::Float(float) => match fast_float::parse::<f32, _>(float.text()) {
                Ok(number) => Ok(number),
                Err(_) => Err(self.misread(Reason::Invalid)),
            },
            Content::Integer(number) => Ok(nearest_i64_to_f32(number)),
            found => Err(self.wanted(Expected::Float, found)),
        }
    }

    fn f64(&mut self, _input: &[u8]) -> Result<f64, Stop<Misread>>
        ensures gives { IfOk result (λ x. Reads (ahead self.old) (event.double x) (ahead self.new)) }
        ensures misses { IfErr result (IsMisread
            (MissesOr IsAnyNumber expected.Float (IsUnreadable binary64) is.Invalid (ahead self.old)) self.old.next) }
    {
        match self.take()?.content {
            Content::Float(float) => match fast_float::parse::<f64, _>(float.text()) {
                Ok(number) => Ok(number),
                Err(_) => Err(self.misread(Reason::Invalid)),
            },
            Content::Integer(number) => Ok(nearest_i64_to_f64(number)),
            found => Err(self.wanted(Expected::Float, found)),
        }
    }

    fn char(&mut self, _input: &[u8]) -> Result<char, Stop<Misread>>
        ensures gives { IfOk result (λ c. Reads (ahead self.old) (event.character c) (ahead self.new)) }
        ensures misses { IfErr result (IsMisread
            (MissesOr IsAnyText expected.Character IsNotOneCharacter is.Invalid (ahead self.old)) self.old.next) }
    {
        match self.text(Expected::Character)?.parse::<char>() {
            Ok(c) => Ok(c),
            Err(_) => Err(self.misread(Reason::Invalid)),
        }
    }

    /// Reads a string or key that can be borrowed from `input`. Returns the start and the end of its text in `input`,
    /// as byte offsets; both are 0 if the text is empty.
    ///
    /// Fails if the next piece is neither a string nor a key, or if no piece is left. Also fails if the text is not
    /// empty and differs from the bytes of `input` at its span, or if an allocation fails.
    fn plain_str(&mut self, input: &[u8]) -> Result<(usize, usize), Stop<Misread>>
        ensures gives { IfOk result (λ r. Reads (ahead self.old) (event.text (slice_range input.now r.0 r.1))
            (ahead self.new)) }
        ensures misses { IfErr result (IsMisread (MissesOr IsAnyText expected.String (IsNotAtItsSpan input.now)
            (is.Wanted expected.PlainString found.String) (ahead self.old)) self.old.next) }
    {
        let Span { start, end } = self.look()?.span;
        let text = self.text(Expected::String)?;
        if text.is_empty() {
            return Ok((0, 0));
        }
        if input.get(start..end) == Some(text.as_bytes()) {
            return Ok((start, end));
        }
        Err(self.wanted(Expected::PlainString, Content::Text(text)))
    }

    fn plain_bytes(&mut self, input: &[u8]) -> Result<(usize, usize), Stop<Misread>>
        ensures gives { IfOk result (λ r. Reads (ahead self.old) (event.octets (slice_range input.now r.0 r.1))
            (ahead self.new)) }
        ensures misses { IfErr result (IsMisread (MissesOr IsAnyText expected.String (IsNotAtItsSpan input.now)
            (is.Wanted expected.PlainString found.String) (ahead self.old)) self.old.next) }
    {
        self.plain_str(input)
    }

    fn string(&mut self, alloc: Global, _input: &[u8]) -> Result<String, Stop<Misread>>
        ensures gives { IfOk result (λ s. Reads (ahead self.old) (event.text (string_bytes s)) (ahead self.new)) }
        ensures misses { IfErr result (IsMisread (Misses IsAnyWritten expected.String (ahead self.old)) self.old.next) }
    {
        let text = match self.take()?.content {
            Content::Text(text) | Content::Key(text) | Content::Datetime(text) => text,
            found => return Err(self.wanted(Expected::String, found)),
        };
        match String::from_str(alloc, text) {
            Ok(text) => Ok(text),
            Err(e) => Err(Stop::Memory(e)),
        }
    }

    fn byte_buf(&mut self, alloc: Global, input: &[u8]) -> Result<Vec<u8>, Stop<Misread>>
        ensures gives { IfOk result (λ bytes. Reads (ahead self.old) (event.octets bytes.items) (ahead self.new)) }
        ensures misses { IfErr result (IsMisread (Misses IsAnyWritten expected.String (ahead self.old)) self.old.next) }
    {
        Ok(self.string(alloc, input)?.into_bytes())
    }

    fn peek(&mut self, _input: &[u8]) -> Result<Kind, Stop<Misread>>
        ensures stays { OnOk result (ahead self.new ≡ ahead self.old) }
        ensures kind { IfOk result (λ kind. Sees (λ p. kind ≡ kind_ahead p.content) (ahead self.old) (ahead self.new)) }
        ensures none { IfErr result (RunsOut self.old) }
    {
        Ok(self.look()?.content.serde_kind())
    }

    /// Returns `false`, since TOML has no unit. Fails if no piece is left.
    fn take_unit(&mut self, _input: &[u8]) -> Result<bool, Stop<Misread>>
        ensures gives { IfOk result (λ b. MatchBool b (Reads (ahead self.old) event.nothing (ahead self.new))
            (ahead self.new ≡ ahead self.old)) }
        ensures none { IfErr result (RunsOut self.old) }
    {
        self.look()?;
        Ok(false)
    }

    /// Returns `false`, since TOML has no null: a field is `None` if its key is absent. Fails if no piece is left.
    fn take_none(&mut self, input: &[u8]) -> Result<bool, Stop<Misread>>
        ensures gives { IfOk result (λ b. MatchBool b (Reads (ahead self.old) event.nothing (ahead self.new))
            (ahead self.new ≡ ahead self.old)) }
        ensures none { IfErr result (RunsOut self.old) }
    {
        self.take_unit(input)
    }

    fn begin_seq(&mut self, _input: &[u8]) -> Result<(), Stop<Misread>>
        ensures gives { OnOk result (Reads (ahead self.old) (event.seq_begins None) (ahead self.new)) }
        ensures misses { IfErr result (IsMisread (Misses (λ c. c ≡ array_begins) expected.Array (ahead self.old))
            self.old.next) }
    {
        match self.take()?.content {
            Content::ArrayBegins => Ok(()),
            found => Err(self.wanted(Expected::Array, found)),
        }
    }

    fn next_item(&mut self, _input: &[u8]) -> Result<bool, Stop<Misread>>
        ensures gives { IfOk result (λ b. MatchBool b (ahead self.new ≡ ahead self.old)
            (Reads (ahead self.old) event.seq_ends (ahead self.new))) }
        ensures none { IfErr result (RunsOut self.old) }
    {
        if let Content::ArrayEnds = self.look()?.content {
            self.next += 1;
            return Ok(false);
        }
        Ok(true)
    }

    fn begin_map(&mut self, _input: &[u8]) -> Result<(), Stop<Misread>>
        ensures gives { OnOk result (Reads (ahead self.old) (event.map_begins None) (ahead self.new)) }
        ensures misses { IfErr result (IsMisread (Misses (λ c. c ≡ table_begins) expected.Table (ahead self.old))
            self.old.next) }
    {
        match self.take()?.content {
            Content::TableBegins => Ok(()),
            found => Err(self.wanted(Expected::Table, found)),
        }
    }

    fn next_key(
        &mut self,
        _input: &[u8],
        names: &[Name<'_>],
    ) -> Result<Option<usize>, Stop<Misread>>
        ensures key { IfOk result (λ o. MatchOption o (Reads (ahead self.old) event.map_ends (ahead self.new))
            (λ at. Picks (ahead self.old) true names.now at (ahead self.new))) }
        ensures notes { IfOk result (λ o. (self.new.at ≡ self.old.next) × (self.new.variant_at ≡ self.old.variant_at)
            × (self.new.is_unknown ≡ is_unknown o (length names.now))) }
        ensures fields { IfOk result (λ o. fields self.new ≡ held_by names.now o (fields self.old)) }
        ensures aliased_key { IfOk result (λ o. (p : Laid) (rest : List Laid) → ahead self.old ≡ p ∷ rest
            → aliased_key self.new ≡ aliased_key_after (option_and_then (slice_get names.now) o)
            (self.old.next, p.span) (aliased_key self.old)) }
        ensures variants { variants self.new ≡ variants self.old }
        ensures misses { IfErr result (IsMisread (Misses IsKeyOrEnd expected.Key (ahead self.old)) self.old.next) }
    {
        let Piece { content, span } = self.take()?;
        match content {
            Content::Key(key) => {
                let found = find(names, key);
                self.note_key(span, names, found)?;
                Ok(Some(found))
            }
            Content::TableEnds => Ok(None),
            found => Err(self.wanted(Expected::Key, found)),
        }
    }

    fn next_entry(&mut self, _input: &[u8]) -> Result<bool, Stop<Misread>>
        ensures gives { IfOk result (λ b. MatchBool b (Reads (ahead self.old) event.key_begins (ahead self.new))
            (Reads (ahead self.old) event.map_ends (ahead self.new))) }
        ensures misses { IfErr result (IsMisread (Misses IsKeyOrEnd expected.Key (ahead self.old)) self.old.next) }
    {
        match self.look()?.content {
            Content::Key(_) => Ok(true),
            Content::TableEnds => {
                self.next += 1;
                Ok(false)
            }
            found => Err(self.wanted(Expected::Key, found)),
        }
    }

    fn variant(&mut self, _input: &[u8], names: &[Name<'_>]) -> Result<usize, Stop<Misread>>
        ensures picks { IfOk result (λ at. Picks (ahead self.old) false names.now at (ahead self.new)) }
        ensures notes { OnOk result ((self.new.variant_at ≡ self.old.next) × (self.new.is_unknown ≡ false)) }
        ensures variants { IfOk result (λ at. ¬ AsksStart names.now → ¬ AsksEnd names.now
            → variants self.new ≡ held names.now at (variants self.old)) }
        ensures misses { IfErr result (IsMisread (Misses IsAnyText expected.Variant (ahead self.old)) self.old.next) }
    {
        self.variant_at = self.next;
        if let [name] = names {
            match name.name {
                START => return Ok(self.look()?.span.start),
                END => return Ok(self.look()?.span.end),
                _ => {}
            }
        }
        let text = self.text(Expected::Variant)?;
        let found = find(names, text);
        if found < names.len() {
            return Ok(found);
        }
        self.variants = owned(all_forms(self.alloc, names))?;
        Ok(found)
    }

    /// Skips a whole value, or a key. Fails with `Invalid` if no piece is left, or if the end of the value is missing.
    fn skip(&mut self, _input: &[u8]) -> Result<(), Stop<Misread>>
        ensures value { (n : Node) (rest : List Laid) → ahead self.old ≡ pieces n ++ rest
            → IsOk result × (ahead self.new ≡ rest) }
        ensures single { (p : Laid) (rest : List Laid) → ahead self.old ≡ p ∷ rest → ¬ IsOpening p.content
            → IsOk result × (ahead self.new ≡ rest) }
        ensures notes { (self.new.variant_at ≡ self.old.variant_at) × (variants self.new ≡ variants self.old) }
        ensures misses { IfErr result (IsMisread (λ why. why ≡ is.Invalid) self.old.next) }
    {
        self.look()?;
        match count_value(&self.pieces[self.next..]) {
            Some(count) => {
                self.next += count;
                Ok(())
            }
            None => Err(self.misread(Reason::Invalid)),
        }
    }

    fn mark(&mut self) -> usize
        ensures { (result ≡ self.old.next) × (self.new ≡ self.old) }
    {
        self.next
    }

    fn rewind(&mut self, mark: usize)
        ensures stands { self.new
            ≡ record self.old { next = mark; at = mark; is_unknown = false; tried = self.new.tried } }
        ensures tried { tries self.new.tried ≡ tries_back_at mark self.old }
    {
        self.note_back(mark);
        self.next = mark;
        self.at = mark;
        self.is_unknown = false;
    }

    fn release(&mut self, _mark: usize)
        ensures { self.new ≡ self.old }
    {}

    fn is_fatal(&self, error: &Stop<Misread>) -> bool
        ensures { IsTrue result ↔ ((e : AllocError) × (error.now ≡ stop.Memory e)) }
    {
        matches!(error, Stop::Memory(_))
    }

    fn missing(&self, name: &str) -> Stop<Misread>
        ensures { IsMisread (Says is.MissingField name.now) self.now.at result }
    {
        match String::from_str(self.alloc, name) {
            Ok(name) => Stop::Fault(Misread {
                reason: Reason::MissingField(name),
                at: self.at,
            }),
            Err(e) => Stop::Memory(e),
        }
    }

    /// Returns the error for two keys of a table that name the field `name`. At least one of the keys is an alias.
    fn duplicate(&self, name: &str) -> Stop<Misread>
        ensures { IsMisread (Says (λ s. is.DuplicateField s (duplicate_place self.now).1) name.now)
            (duplicate_place self.now).0 result }
    {
        let (at, first) = self.duplicate_place();
        match String::from_str(self.alloc, name) {
            Ok(name) => Stop::Fault(Misread {
                reason: Reason::DuplicateField { name, first },
                at,
            }),
            Err(e) => Stop::Memory(e),
        }
    }

    fn unknown_key(&self) -> Stop<Misread>
        ensures { IsMisread (Lists is.UnknownField (piece_text_in (slice_get (laid self.now) self.now.at))
            (fields self.now)) self.now.at result }
    {
        match self.named(self.at, self.fields.as_slice()) {
            Ok((name, expected)) => Stop::Fault(Misread {
                reason: Reason::UnknownField { name, expected },
                at: self.at,
            }),
            Err(e) => Stop::Memory(e),
        }
    }

    /// Returns the error for an unknown variant name. The name is the piece that was looked at last if that piece is an
    /// unknown key, otherwise the piece that was last read as the name of a variant.
    fn unknown_variant(&self) -> Stop<Misread>
        ensures { IsMisread (Lists is.UnknownVariant
            (piece_text_in (slice_get (laid self.now) (variant_place self.now))) (variant_names self.now))
            (variant_place self.now) result }
    {
        let at = self.variant_place();
        match self.named(at, self.variant_names()) {
            Ok((name, expected)) => Stop::Fault(Misread {
                reason: Reason::UnknownVariant { name, expected },
                at,
            }),
            Err(e) => Stop::Memory(e),
        }
    }

    /// Returns the error for an array of the wrong length. If the end of the array was read, the error is `Length` with
    /// the number of its elements. Otherwise the array is too long, and the error is `TooLong` with the number of
    /// elements that the type expects.
    fn wrong_len(&self) -> Stop<Misread>
        ensures { IsMisread (λ why. why ≡ length_reason self.now) self.now.at result }
    {
        match elements_in(self.alloc, self.before(self.at)) {
            Ok(count) if self.at < self.next => self.misread(Reason::Length(count)),
            Ok(count) => self.misread(Reason::TooLong(count)),
            Err(e) => Stop::Memory(e),
        }
    }

    /// Returns the error for a value that the type does not accept. If the value was read, the error is `OutOfRange`
    /// for an integer, otherwise `Invalid`. If the value was only looked at, returns the error of `other`. If no piece
    /// is left, the error is `Invalid`.
    fn invalid(&self) -> Stop<Misread>
        ensures read { self.now.at < self.now.next → IsMisread (λ why. why
            ≡ refusal_in (slice_get (laid self.now) self.now.at)) self.now.at result }
        ensures looked { self.now.next ≤ self.now.at → IsMisread (IsOtherIn
            (kinds_at self.now.at (tries self.now.tried)) (slice_get (laid self.now) self.now.at)) self.now.at result }
    {
        match self.pieces.get(self.at) {
            Some(piece) if self.at < self.next => self.misread(piece.content.refusal()),
            Some(piece) => self.other(piece.content.kind()),
            None => self.misread(Reason::Invalid),
        }
    }

    fn no_memory(&self) -> Stop<Misread>
        ensures { (e : AllocError) × (result ≡ stop.Memory e) }
    {
        Stop::Memory(AllocError)
    }

    fn custom(&self, message: &str) -> Stop<Misread>
        ensures { IsMisread (Says is.Custom message.now) self.now.at result }
    {
        match String::from_str(self.alloc, message) {
            Ok(message) => Stop::Fault(Misread {
                reason: Reason::Custom(message),
                at: self.at,
            }),
            Err(e) => Stop::Memory(e),
        }
    }
}

/// Converts the error of `names`, a failed allocation, to the error of a reader.
fn owned(names: Result<Vec<String>, AllocError>) -> Result<Vec<String>, Stop<Misread>>
    ensures ok { IfOk result (λ all. names ≡ Ok all) }
    ensures memory { IfErr result IsMemory }
{
    match names {
        Ok(names) => Ok(names),
        Err(e) => Err(Stop::Memory(e)),
    }
}
