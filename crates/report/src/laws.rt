//! Laws about the definitions of texts.

ghost use Rattle.std.specs.Prelude.{◌≡◌};
ghost use Rattle.report.specs.Report.{Head, Failure, IsHead, IsTold, failure_text};

/// A failure text has one reading: the name, the unwinding, whether unwinding assertions are on, the class, the line, the
/// function, the thread, the inputs and the schedule follow from it.
pub fn one_reading()
    ensures { (h k : Head) (f g : Failure) → IsHead h → IsHead k → IsTold f → IsTold g → failure_text h f ≡ failure_text k g → (h ≡ k) × (f ≡ g) }
{}
