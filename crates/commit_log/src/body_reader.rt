//! What the bodies of a log are.

/// Tells what a body is, and reads the bodies of a log, from that of the first frame on.
pub trait BodyReader {
    ghost use Rattle.std.specs.Prelude.{◌≡◌, ◌+◌, ◌≤◌, ℕ, Bool, true, List};
    ghost use Rattle.commit_log.specs.LogState.{with_body};

    /// Whether bytes are the body of the frame of a number.
    ghost is_body: { ℕ → List ℕ → Bool };

    /// What the reader holds once it has read these bodies.
    ghost holds: { Self → List (List ℕ) → Type 0 };

    /// For how many bodies more it has room.
    ghost room: { Self → ℕ };

    /// For how many bodies it has room in all. Reading keeps it.
    ghost capacity: { Self → ℕ };

    /// Reads the body of the frame of this number, and answers false where the bytes are none.
    fn read(&mut self, number: u32, bytes: &[u8]) -> bool
        requires { 1 ≤ room self.old }
        ensures answer { result ≡ is_body number bytes.now }
        ensures held { (bodies : List (List ℕ)) → holds self.old bodies → result ≡ true
            → holds self.new (with_body bodies bytes.now) }
        ensures room { room self.old ≤ room self.new + 1 }
        ensures capacity { capacity self.new ≡ capacity self.old };
}
