//! What follows from the definitions. The function does nothing: its clauses are the laws.
ghost use Rattle.std.specs.Prelude.{◌≡◌, ◌≢◌, ◌<◌, ◌/◌, ℕ};
ghost use Rattle.sn_callers.specs.Sessions.{session_of};

/// No open file is in the session of who asks, each is in one of the 64, and two that are in one session are in the same block of 64.
///
/// Proved: No open file has a descriptor of the session of who asks, and no session has more than 64 of them.
pub fn handles_have_sessions()
    ensures asker { (handle : ℕ) → session_of handle ≢ 1 }
    ensures within { (handle : ℕ) → handle < 4032 → session_of handle < 64 }
    ensures block { (a b : ℕ) → session_of a ≡ session_of b → a / 64 ≡ b / 64 }
{}
