//! Laws of signatures. The function does nothing: its contract is the law.

ghost use Rattle.std.specs.Prelude.{◌≡◌, ℕ, List};
ghost use Rattle.machine.specs.Throw.{on_some};
ghost use Rattle.image_bytes.specs.Layout.{Image};
ghost use Rattle.image_form.specs.Signatures.{read_type, read_signature, whole};
ghost use Rattle.image_form.specs.Form.{no_spec};
ghost use Rattle.image_form.specs.Whole.{token_in};
ghost use Rattle.assemblies.specs.Rows.{Assembly};
ghost use Rattle.assemblies.specs.Binding.{expanded, expanded_signature};
ghost use Rattle.set_signatures.specs.declared.tokens.Tokens.{Tokens};
ghost use Rattle.set_signatures.specs.Meant.{field_told, method_told};
ghost use Rattle.set_signatures.specs.Law.{AreTokens};

/// What is told of signatures by the tokens of an image is what the set's rows say, read as the image's own rows are.
pub fn signatures_mean_what_rows_say()
    ensures field { (i : Image) (k : ℕ) (ps : List Assembly) (t : Tokens) → AreTokens i k ps t → (bytes : List ℕ) → field_told t bytes ≡ on_some (whole (read_type (λ w. on_some (token_in i w) no_spec)) bytes) (expanded k ps t.file) }
    ensures method { (i : Image) (k : ℕ) (ps : List Assembly) (t : Tokens) → AreTokens i k ps t → (bytes : List ℕ) → method_told t bytes ≡ on_some (whole (read_signature (λ w. on_some (token_in i w) no_spec)) bytes) (expanded_signature k ps t.file) }
{}
