ghost use Rattle.std.specs.Prelude.{◌≡◌, ◌≤◌, List, ℕ, length};
ghost use Rattle.m4_model.specs.Matrix.{Matrix};
ghost use Rattle.m4_model.specs.Headed.{InLimits, Fault};
ghost use Rattle.m4_model.specs.FormTexts.{can_hold, text_as, ReadsAs, RefusalAs};
ghost use Rattle.m4_model.specs.declared.form.Form.{Form};

use crate::limits::MOST_BYTES;

/// In each form, bytes are read as at most one matrix and refused with at most one fault, and never both.
pub fn law_read()
    ensures never_both { (form : Form) (bytes : List ℕ) (M : Matrix) (fault : Fault)
        → ReadsAs form bytes M → RefusalAs form bytes fault → ⊥ }
    ensures one_matrix { (form : Form) (bytes : List ℕ) (A B : Matrix)
        → ReadsAs form bytes A → ReadsAs form bytes B → A ≡ B }
    ensures one_fault { (form : Form) (bytes : List ℕ) (f g : Fault)
        → RefusalAs form bytes f → RefusalAs form bytes g → f ≡ g }
{}

/// A matrix within the limits that the form can hold, and whose text has at most 2^29 bytes, is what that text is read
/// as.
pub fn law_read_back()
    ensures { (form : Form) (M : Matrix) → InLimits M → can_hold form M → length (text_as form M) ≤ MOST_BYTES
        → ReadsAs form (text_as form M) M }
{}
