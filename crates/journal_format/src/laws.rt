//! What callers need to know of the text, as functions whose contracts say it.

ghost use Rattle.std.specs.Prelude.{◌≡◌, ℕ, ◌++◌, List};
ghost use Rattle.job_states.specs.declared.transition.Transaction.{Transaction};
ghost use Rattle.journal_format.specs.Payload.{HasText};
ghost use Rattle.journal_format.specs.Records.{HoldsRecords};
ghost use Rattle.journal_format.specs.Spelling.{payload};

/// Each list of transactions has one text, and no text is a proper prefix of another one.
pub fn one_text()
    ensures { (a b : List Transaction) (x y : List ℕ) → HasText a → HasText b → payload a ++ x ≡ payload b ++ y → (a ≡ b) × (x ≡ y) }
{}

/// The records after open gates are one list for a text.
pub fn one_list_of_records()
    ensures { (text : List ℕ) (a b : List (List ℕ)) → HoldsRecords text a → HoldsRecords text b → a ≡ b }
{}
