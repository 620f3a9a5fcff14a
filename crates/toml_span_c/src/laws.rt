//! Laws about records and error numbers. Each law is the contract of a function that does nothing.
ghost use Rattle.std.specs.Prelude.{◌≡◌, ◌≢◌, ◌≤◌, ◌+◌, ◌*◌, ℕ, List, length};
ghost use Rattle.toml_span.specs.Parsing.{IsRefusal, IsTree};
ghost use Rattle.toml_span_c.specs.Faults.{code_name, code_number};
ghost use Rattle.toml_span_c.specs.Records.{tree_records, tree_strings};
ghost use Rattle.toml_span_lex.specs.declared.stop.Stop.TheVariants as stops;
ghost use Rattle.toml_span_tree.specs.Error.{Kind, content_of};
ghost use Rattle.toml_span_tree.specs.Message.{code_of};
ghost use Rattle.toml_span_tree.specs.Value.{view};
ghost use Rattle.toml_span_tree.specs.declared.error.Error.{Error};
ghost use Rattle.toml_span_tree.specs.declared.value.Value.{Value};

/// The kind of every error that `parse` returns has a number other than 0.
pub fn errors_are_numbered()
    ensures { (bytes : List ℕ) (limit : ℕ) (error : Error) → IsRefusal bytes limit (stops.Fault error)
        → code_number (content_of error).kind ≢ 0 }
{}

/// If a kind of error has a number other than 0, the name for this number is the code of the kind.
pub fn numbers_are_named()
    ensures { (kind : Kind) → code_number kind ≢ 0 → code_name (code_number kind) ≡ code_of kind }
{}

/// A document of `n` bytes has at most `2 * n + 1` records.
pub fn records_are_few()
    ensures { (bytes : List ℕ) (limit : ℕ) (root : Value) → IsTree bytes limit root
        → length (tree_records bytes (view root)) ≤ 2 * length bytes + 1 }
{}

/// The strings of a document together have at most as many bytes as the document.
pub fn strings_fit()
    ensures { (bytes : List ℕ) (limit : ℕ) (root : Value) → IsTree bytes limit root
        → length (tree_strings bytes (view root)) ≤ length bytes }
{}
