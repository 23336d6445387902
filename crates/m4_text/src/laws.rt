ghost use Rattle.std.specs.Prelude.{◌≡◌, ℕ, ◌≤◌, ◌⊎◌, List, length};
ghost use Rattle.m4_model.specs.Matrix.{Matrix};
ghost use Rattle.m4_model.specs.Text.{text, Reads, Refusal, Fault, InLimits};
ghost use Rattle.m4_model.specs.declared.form.Form.{Form};
ghost use Rattle.m4_model.specs.Texts.{can_hold, text_as, ReadsAs, RefusalAs};

use crate::limits::MOST_BYTES;

/// No bytes are both read as a matrix and refused.
pub fn law_read_or_refused()
    ensures { (bytes : List ℕ) (M : Matrix) (fault : Fault) → Reads bytes M → Refusal bytes fault → ⊥ }
{}

/// The text of a matrix within the limits has at most 2^29 bytes.
pub fn law_text_len()
    ensures { (M : Matrix) → InLimits M → length (text M) ≤ MOST_BYTES }
{}

/// In each form, bytes are read as exactly one matrix or refused with exactly one fault, and never both.
pub fn law_read()
    ensures either { (form : Form) (bytes : List ℕ)
        → ((M : Matrix) × ReadsAs form bytes M) ⊎ ((fault : Fault) × RefusalAs form bytes fault) }
    ensures never_both { (form : Form) (bytes : List ℕ) (M : Matrix) (fault : Fault)
        → ReadsAs form bytes M → RefusalAs form bytes fault → ⊥ }
    ensures one_matrix { (form : Form) (bytes : List ℕ) (A B : Matrix)
        → ReadsAs form bytes A → ReadsAs form bytes B → A ≡ B }
    ensures one_fault { (form : Form) (bytes : List ℕ) (f g : Fault)
        → RefusalAs form bytes f → RefusalAs form bytes g → f ≡ g }
{}

/// A matrix within the limits that the form can hold, and whose text has at most 2^29 bytes, is what that text is read
/// as. A headed or bare text is never longer.
pub fn law_read_back()
    ensures { (form : Form) (M : Matrix) → InLimits M → can_hold form M → length (text_as form M) ≤ MOST_BYTES
        → ReadsAs form (text_as form M) M }
{}
