//! Laws of matrix files, order files, permutation files and files of places: what holds of each, without a call.

ghost use Rattle.std.specs.Prelude.{◌≡◌, ◌⊎◌, ◌≤◌, ℕ, List, [], ◌∷◌, decimal, length, map};
ghost use Rattle.limits.specs.Limits.{most_bytes, most_order};
ghost use Rattle.lists.specs.Numbers.{number_at};
ghost use Rattle.mp_text.specs.declared.layout.Layout.TheVariants.{Commented};
ghost use Rattle.mp_text.specs.Ahead.{rows_of_bytes};
ghost use Rattle.mp_text.specs.Report.{text_of_lines};
ghost use Rattle.mp_text.specs.declared.refusals.Refusal.{Refusal};
ghost use Rattle.permutations.specs.Perm.{IsPerm, IsVertex, place_of};
ghost use Rattle.matrix_files.specs.MatrixFile.{ReadsPattern, RefusesPattern};
ghost use Rattle.matrix_files.specs.OrderFile.{ReadsOrder, RefusesOrder};
ghost use Rattle.matrix_files.specs.PermFile.{ReadsPerm, RefusesPerm};
ghost use Rattle.matrix_files.specs.InverseFile.{places_stated, ReadsInverse, RefusesInverse};
ghost use Rattle.matrix_files.specs.declared.kind.MatrixKind.{MatrixKind};
ghost use Rattle.matrix_files.specs.declared.order_file.OrderFileKind.{OrderFileKind};
ghost use Rattle.matrix_files.specs.declared.perm_file.PermKind.{PermKind};

use crate::kind::MatrixKind;
use crate::order_file::OrderFileKind;
use crate::perm_file::PermKind;
use mp_text::laws as text_laws;

/// A file is read as a pattern or refused, never both; it is read as one pattern only, and refused with one refusal only.
pub fn exactly_one()
    ensures some { (bytes : List ℕ) →
        ((rows : List (List ℕ)) × ReadsPattern bytes rows) ⊎ ((refusal : Refusal MatrixKind) × RefusesPattern bytes refusal) }
    ensures not_both { (bytes : List ℕ) (rows : List (List ℕ)) (refusal : Refusal MatrixKind) →
        ReadsPattern bytes rows → RefusesPattern bytes refusal → ⊥ }
    ensures one_pattern { (bytes : List ℕ) (one two : List (List ℕ)) → ReadsPattern bytes one → ReadsPattern bytes two → one ≡ two }
    ensures one_refusal { (bytes : List ℕ) (one two : Refusal MatrixKind) →
        RefusesPattern bytes one → RefusesPattern bytes two → one ≡ two }
{
    text_laws::exactly_one::<MatrixKind>();
}

/// A file is read as an order or refused, never both; it is read as one order only, and refused with one refusal only.
pub fn exactly_one_order()
    ensures some { (bytes : List ℕ) →
        ((numbers : List ℕ) × ReadsOrder bytes numbers) ⊎ ((refusal : Refusal OrderFileKind) × RefusesOrder bytes refusal) }
    ensures not_both { (bytes numbers : List ℕ) (refusal : Refusal OrderFileKind) →
        ReadsOrder bytes numbers → RefusesOrder bytes refusal → ⊥ }
    ensures one_order { (bytes one two : List ℕ) → ReadsOrder bytes one → ReadsOrder bytes two → one ≡ two }
    ensures one_refusal { (bytes : List ℕ) (one two : Refusal OrderFileKind) →
        RefusesOrder bytes one → RefusesOrder bytes two → one ≡ two }
{
    text_laws::exactly_one::<OrderFileKind>();
}

/// A file is read as a permutation or refused, never both; it is read as one permutation only, and refused with one refusal only.
pub fn exactly_one_perm()
    ensures some { (n : ℕ) (bytes : List ℕ) →
        ((order : List ℕ) × ReadsPerm n bytes order) ⊎ ((refusal : Refusal PermKind) × RefusesPerm n bytes refusal) }
    ensures not_both { (n : ℕ) (bytes order : List ℕ) (refusal : Refusal PermKind) →
        ReadsPerm n bytes order → RefusesPerm n bytes refusal → ⊥ }
    ensures one_order { (n : ℕ) (bytes one two : List ℕ) → ReadsPerm n bytes one → ReadsPerm n bytes two → one ≡ two }
    ensures one_refusal { (n : ℕ) (bytes : List ℕ) (one two : Refusal PermKind) →
        RefusesPerm n bytes one → RefusesPerm n bytes two → one ≡ two }
{
    text_laws::exactly_one::<PermKind>();
}

/// What a file is read as is a permutation: it holds each of 1 to n once.
pub fn read_is_perm()
    ensures { (n : ℕ) (bytes order : List ℕ) → ReadsPerm n bytes order → IsPerm n order }
{}

/// A file of places is read as an order or refused, never both; it is read as one order only, and refused with one refusal only.
pub fn exactly_one_inverse()
    ensures some { (n : ℕ) (bytes : List ℕ) →
        ((order : List ℕ) × ReadsInverse n bytes order) ⊎ ((refusal : Refusal PermKind) × RefusesInverse n bytes refusal) }
    ensures not_both { (n : ℕ) (bytes order : List ℕ) (refusal : Refusal PermKind) →
        ReadsInverse n bytes order → RefusesInverse n bytes refusal → ⊥ }
    ensures one_order { (n : ℕ) (bytes one two : List ℕ) → ReadsInverse n bytes one → ReadsInverse n bytes two → one ≡ two }
    ensures one_refusal { (n : ℕ) (bytes : List ℕ) (one two : Refusal PermKind) →
        RefusesInverse n bytes one → RefusesInverse n bytes two → one ≡ two }
{
    text_laws::exactly_one::<PermKind>();
}

/// What a file of places is read as is a permutation, in which the place of each vertex v is the v-th that the file states, counted from 1.
pub fn inverse_is_perm()
    ensures perm { (n : ℕ) (bytes order : List ℕ) → ReadsInverse n bytes order → IsPerm n order }
    ensures places { (n : ℕ) (bytes order : List ℕ) → ReadsInverse n bytes order → (v : ℕ) → IsVertex n v →
        place_of order v ≡ number_at (places_stated n (rows_of_bytes Commented bytes)) v }
{}

/// An order that is printed, a vertex on a line, is read as it was, and its text is within the limit of bytes, so that a file of it can be
/// read whole.
pub fn printed_perm()
    ensures reads { (n : ℕ) (order : List ℕ) → n ≤ most_order → IsPerm n order →
        ReadsPerm n (text_of_lines (map (λ v. decimal v ∷ []) order)) order }
    ensures short { (n : ℕ) (order : List ℕ) → n ≤ most_order → IsPerm n order →
        length (text_of_lines (map (λ v. decimal v ∷ []) order)) ≤ most_bytes }
{
    text_laws::printed_number();
    text_laws::printed_file();
}
