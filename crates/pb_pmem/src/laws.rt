//! The laws of what a crash may leave. Each stands in the contract of a function that does nothing.
ghost use Rattle.std.specs.Prelude.{◌≡◌, ℕ, ◌↔◌, [], ◌∷◌, ◌++◌, List, length, reverse, take, Any, Some};
ghost use Rattle.pb_pmem.specs.declared.line.Line.{Line};
ghost use Rattle.pb_pmem.specs.declared.log.LogOp.{LogOp};
ghost use Rattle.pb_pmem.specs.Contents.{contents};
ghost use Rattle.pb_pmem.specs.Crash.{IsAtRest, IsCrashImage, IsCrashImageAt, line_written, unbacked_writes};
ghost use Rattle.pb_pmem.specs.Lines.{word_of};
ghost use Rattle.pb_pmem.specs.Past.{Leaves};

use crate::log::LogOp;

/// At each moment a crash may leave what the device holds.
pub fn contents_may_be_left()
    ensures { (base : List Line) (log : List LogOp) (moment : ℕ) → IsCrashImageAt base log moment (contents base (take moment log)) }
{}

/// The recursion on the last operation says the same as marks, cuts and settled, barred and loose writes.
pub fn both_forms_agree()
    ensures { (base : List Line) (log : List LogOp) (image : List Line)
        → IsCrashImage base log image ↔ ((length image ≡ length base) × Leaves base (reverse log) (word_of image)) }
{}

/// A fence neither adds an image nor takes one away.
pub fn fence_changes_no_image()
    ensures { (base : List Line) (log : List LogOp) (image : List Line)
        → IsCrashImage base (log ++ LogOp.Fence ∷ []) image ↔ IsCrashImage base log image }
{}

/// Giving lines to the device neither adds an image nor takes one away.
pub fn back_changes_no_image()
    ensures { (base : List Line) (log : List LogOp) (first count : ℕ) (image : List Line)
        → IsCrashImage base (log ++ LogOp.Back first count ∷ []) image ↔ IsCrashImage base log image }
{}

/// A sync takes images away and adds none.
pub fn sync_adds_no_image()
    ensures { (base : List Line) (log : List LogOp) (image : List Line)
        → IsCrashImage base (log ++ LogOp.Sync ∷ []) image
        → IsCrashImage base log image }
{}

/// After a sync, a line each of whose writes has a `Back` of it after it stands as the device holds it.
pub fn sync_keeps_what_was_given()
    ensures { (base : List Line) (log : List LogOp) (image : List Line) (line word : ℕ)
        → (Any (λ op. line_written op ≡ Some line) (unbacked_writes log) → ⊥)
        → IsCrashImage base (log ++ LogOp.Sync ∷ []) image
        → word_of image line word ≡ word_of (contents base log) line word }
{}

/// After a sync, where each write has a `Back` of its line after it, the device is at rest.
pub fn sync_brings_to_rest()
    ensures { (base : List Line) (log : List LogOp) → unbacked_writes log ≡ [] → IsAtRest base (log ++ LogOp.Sync ∷ []) }
{}

/// A device to which nothing was done is at rest.
pub fn new_device_is_at_rest()
    ensures { (base : List Line) → IsAtRest base [] }
{}
