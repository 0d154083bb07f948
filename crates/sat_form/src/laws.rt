//! What models and refutations say of a form, as functions that do nothing.

ghost use Rattle.std.specs.Prelude.{◌≡◌, ◌∷◌, ◌++◌, ℕ, Bool, List};
ghost use Rattle.sat_form.specs.Satisfaction.{Literal, Satisfies};
ghost use Rattle.sat_form.specs.Refutation.{IsDerivation, IsRefutation};
ghost use Rattle.sat_form.specs.Budget.{AreAllowed, HaveSameLiterals};
ghost use Rattle.sat_form.specs.declared.logs.Entry.{Entry};

/// A form that a log refutes has no model.
pub fn no_model()
    ensures { (form : List (List Literal)) (log : List Entry) → IsRefutation form log → (a : ℕ → Bool) → Satisfies a form → ⊥ }
{}

/// Where each entry of a log is one that a budget allows, no unit has the same literals as an earlier
/// one, be it live or deleted.
pub fn units_differ()
    ensures { (form : List (List Literal)) (log before : List Entry) (c : List Literal) (hs : List ℕ) (middle : List Entry) (d : List Literal) (gs : List ℕ) (after : List Entry) → AreAllowed form log → log ≡ before ++ Entry.Added c hs ∷ (middle ++ Entry.Added d gs ∷ after) → HaveSameLiterals c d → ⊥ }
{}

/// A log whose entries a budget allows is a derivation: each unit follows by reverse unit propagation
/// from the database of its moment.
pub fn units_follow()
    ensures { (form : List (List Literal)) (log : List Entry) → AreAllowed form log → IsDerivation form log }
{}
