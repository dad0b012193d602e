//! Laws of fence files: what holds of each, without a call.

ghost use Rattle.std.specs.Prelude.{◌≡◌, ◌⊎◌, ◌≤◌, ℕ, List, length};
ghost use Rattle.limits.specs.Limits.{most_bytes};
ghost use Rattle.mp_text.specs.declared.refusals.Refusal.{Refusal};
ghost use Rattle.shared_systems.specs.Shared.{SharedTaskSystem};
ghost use Rattle.shared_systems.specs.Bounds.{IsSharedSystem};
ghost use Rattle.fences.specs.Certificates.{Certificate, Certifies};
ghost use Rattle.fence_files.specs.declared.kind.FenceKind.{FenceKind};
ghost use Rattle.fence_files.specs.FenceFile.{ReadsFences, RefusesFences};
ghost use Rattle.fence_files.specs.Printed.{AreCounted, IsPrintable, IsWord, fences_text};

use crate::kind::FenceKind;
use mp_text::laws as text_laws;
use shared_systems::laws::count_law;

/// A file is read as a certificate or refused, never both; it is read as one certificate only, and refused with one refusal only.
pub fn exactly_one()
    ensures some { (bytes : List ℕ) →
        ((certificate : Certificate) × ReadsFences bytes certificate) ⊎ ((refusal : Refusal FenceKind) × RefusesFences bytes refusal) }
    ensures not_both { (bytes : List ℕ) (certificate : Certificate) (refusal : Refusal FenceKind) →
        ReadsFences bytes certificate → RefusesFences bytes refusal → ⊥ }
    ensures one_certificate { (bytes : List ℕ) (one two : Certificate) → ReadsFences bytes one → ReadsFences bytes two → one ≡ two }
    ensures one_refusal { (bytes : List ℕ) (one two : Refusal FenceKind) →
        RefusesFences bytes one → RefusesFences bytes two → one ≡ two }
{
    text_laws::exactly_one::<FenceKind>();
}

/// What a file is read as is within the ranges of the format.
pub fn read_law()
    ensures { (bytes : List ℕ) (certificate : Certificate) → ReadsFences bytes certificate → IsPrintable certificate }
{}

/// The text of a certificate within the ranges of the format is read as that certificate.
pub fn printed_fences()
    ensures { (certificate : Certificate) → IsPrintable certificate → ReadsFences (fences_text certificate) certificate }
{
    text_laws::printed_number();
    text_laws::printed_file();
}

/// A certificate for a system is one that a file can state, if its bound is a number of 64 bits, and there are as many workers as there may be.
pub fn certified_fences()
    ensures { (system : SharedTaskSystem) (certificate : Certificate) → IsSharedSystem system → Certifies system certificate →
        IsWord certificate.bound → AreCounted certificate.workers → IsPrintable certificate }
{
    count_law();
}

/// The text is within the limit of bytes, so that a file of it can be read whole.
pub fn printed_length()
    ensures { (certificate : Certificate) → IsPrintable certificate → length (fences_text certificate) ≤ most_bytes }
{}
