//! What follows from the definitions: the two sides' names are one for one. The functions do nothing: their clauses are
//! the laws.
ghost use Rattle.std.specs.Prelude.{ℕ, ◌≡◌, List, IsTrue};
ghost use Rattle.sn_limits.specs.Names.{is_name, is_name_spelled};
ghost use Rattle.sn_host_names.specs.Escapes.{image_name, is_host_name};

/// No two host names have the same image name.
///
/// Proved, also of `names_have_host_names`: No two names of a mount are denoted by one name of an image, and each name of an
/// image denotes a name of a mount.
pub fn image_names_are_distinct()
    ensures { (a b : List ℕ) → image_name a ≡ image_name b → a ≡ b }
{}

/// An image name is spelled as a name, and may only be too long for one.
///
/// Proved: The name that denotes a name of a mount is spelled as a name of an image.
pub fn image_names_are_spelled()
    ensures { (host : List ℕ) → IsTrue (is_host_name host) → IsTrue (is_name_spelled (image_name host)) }
{}

/// Each name of an image is the image name of a host name.
pub fn names_have_host_names()
    ensures { (name : List ℕ) → IsTrue (is_name name) → (host : List ℕ) × IsTrue (is_host_name host) × (image_name host ≡ name) }
{}
