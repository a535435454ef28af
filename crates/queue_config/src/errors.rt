ghost use Rattle.std.specs.Prelude.{◌≡◌, ◌↔◌, ◌≤◌, ℕ, List as Seq, true, length, All};
ghost use Rattle.job_states.specs.Texts as among;
ghost use Rattle.queue_config.specs.declared.config.Config.{Config};
ghost use Rattle.queue_config.specs.Errors.{IsKindOf};
ghost use Rattle.queue_config.specs.Errors as spec;
ghost use Rattle.queue_config.specs.Ranges.{IsConfig, IsErrorKeys};

use crate::error_list::is_among;
use crate::{ErrorKeys, ErrorList, Index};
use job_states::{Name, Text};
use std::slice;

/// The error of which all others are kinds.
pub(crate) const STANDARD_ERROR: &str = "StandardError";

/// Is one of the names the error, or one of so many errors above it?
fn meets(errors: &Index<ErrorKeys>, names: &[Text], error: &Name, parents: usize) -> bool
    requires { All IsErrorKeys errors.now }
    ensures { result ≡ spec.meets errors.now names.now parents error.now }
{
    let mut kind = error;
    for _ in 0..parents {
        if is_among(names, kind.as_str()) {
            return true;
        }
        match errors.find(kind) {
            Some(declared) => kind = &declared.parent,
            None => return is_among(names, STANDARD_ERROR),
        }
    }
    is_among(names, kind.as_str())
}

/// In accepted settings the names for which a rule's errors are looked at are those of the error and of all its ancestors.
pub fn kinds_are_ancestors()
    ensures { (config : Config) (names : Seq (Seq ℕ)) (error : Seq ℕ) → IsConfig config →
        (spec.is_kind_of config.errors names error ≡ true)
        ↔ ((kind : Seq ℕ) × IsKindOf config.errors error kind × (among.is_among names kind ≡ true)) }
{}

/// Is one of the names the error, or an ancestor of it?
pub(crate) fn is_kind_of(errors: &Index<ErrorKeys>, names: &ErrorList, error: &Name) -> bool
    requires errors { All IsErrorKeys errors.now }
    requires count { length errors.now ≤ 1024 }
    ensures { result ≡ spec.is_kind_of errors.now names.now error.now }
{
    meets(errors, names.as_slice(), error, errors.as_slice().len() + 1)
}

/// Do the parents of an error come round to it?
pub(crate) fn is_own_ancestor(errors: &Index<ErrorKeys>, error: &ErrorKeys) -> bool
    requires { All IsErrorKeys errors.now }
    ensures { result ≡ spec.is_own_ancestor errors.now error.now }
{
    let name = slice::from_ref(error.name.as_text());
    meets(errors, name, &error.parent, errors.as_slice().len())
}
