ghost use Rattle.std.specs.Prelude.{◌∷◌, [], List};
ghost use Rattle.sn_import_calls.specs.Acts.{Act, Called, Told};
ghost use Rattle.sn_import_calls.specs.Carried.{Grows};

use crate::why::Why;
use sn_model::{Call, Reply};

/// What answers the calls of an import, and takes its reports.
pub trait Calls {
    /// Whether these calls with their replies, and these reports, are what was done from the second one on up to the first, in this order. Of
    /// one of which that isn't known nothing is.
    ghost did: { Self → Self → List Act → Type 0 } = { λ _ _ _. ⊥ };

    /// The reply to a call of session 0, which is user 0's.
    fn call(&mut self, call: &Call) -> Reply
        ensures { Grows (did self.old) (did self.new) (Called call.now result ∷ []) };

    /// Reports what is wrong with an entry, by its place in the archive, from 1 on, and its name there. Of a directory whose rights are set after
    /// all entries no place is known, and the name is its path in the image.
    fn report(&mut self, entry: Option<u64>, name: &[u8], why: Why)
        ensures { Grows (did self.old) (did self.new) (Told entry name.now why ∷ []) };
}
