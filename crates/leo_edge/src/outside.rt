//! What the provers ask of the outside: files to read, a sink to write to, and a source to read from.
ghost use Rattle.std.specs.Prelude.{◌≡◌, ℕ, ◌<◌, ◌≤◌, Bool, true, ◌||◌, List, ◌++◌, length, take, Option, Some, IfSome};
ghost use Rattle.std.specs.Option.{option_map};
ghost use Rattle.leo_edge.specs.Outside.{HasRisen, Appends, OnGot, UnlessGot, OnLong, OnFailed, UnlessFailed, IfTook, OnNoneTaken, IfGiven, UnlessGiven, OnNextFailed, is_end};

/// The answer of a fetch.
#[derive(Clone, Copy, Debug, PartialEq, Eq)]
pub enum Fetched {
    /// The whole content was appended.
    Got,
    /// The content has more bytes than the limit.
    Long,
    /// The content cannot be had.
    Failed,
    /// No memory was found.
    Memory,
}

/// Files by name. A count of faults tells each failure; it stops at the last value of 64 bits.
pub trait Files {
    // the content of a name, where it is told
    ghost content: { Self → List ℕ → Option (List ℕ) };

    ghost faults: { Self → ℕ };
    // the name of the last fetch that failed
    ghost failed: { Self → Option (List ℕ) };

    /// Appends the content of the name to `into`, if it has at most `limit` bytes. Answers other than
    /// `Got` leave `into` as it was. Room for the name is taken first, so that a failure can tell it.
    fn fetch(&mut self, name: &str, limit: usize, into: &mut Vec<u8>) -> Fetched
        ensures content_stays { (n : List ℕ) → content self.new n ≡ content self.old n }
        ensures got { OnGot result (Appends into.old.items into.new.items limit (content self.old name.now)) }
        ensures long { OnLong result (IfSome (content self.old name.now) (λ whole. limit < length whole)) }
        ensures appends_at_got_only { UnlessGot result (into.new.items ≡ into.old.items) }

        ensures never_falls { faults self.old ≤ faults self.new }
        ensures failed { OnFailed result (HasRisen (faults self.old) (faults self.new) × (failed self.new ≡ Some name.now)) }
        ensures failed_stays { UnlessFailed result (failed self.new ≡ failed self.old) };
}

/// The answer of a put.
#[derive(Clone, Copy, Debug, PartialEq, Eq)]
pub enum Put {
    /// So many bytes of the piece were taken, from its front.
    Took(usize),
    /// None was taken.
    Failed,
}

/// A sink of bytes. A count of faults tells each failure; it stops at the last value of 64 bits.
pub trait Sink {
    // the bytes taken so far, where they are told
    ghost taken: { Self → Option (List ℕ) };

    ghost faults: { Self → ℕ };

    /// Takes the front of the piece, at least one byte of it.
    fn put(&mut self, piece: &[u8]) -> Put
        requires { 0 < length piece.now }
        ensures took { IfTook result (λ n. (0 < n) × (n ≤ length piece.now) × (taken self.new ≡ option_map (λ bytes. bytes ++ take n piece.now) (taken self.old))) }
        ensures never_falls { faults self.old ≤ faults self.new }
        ensures failed { OnNoneTaken result (HasRisen (faults self.old) (faults self.new) × (taken self.new ≡ taken self.old)) };
}

/// The answer of a source.
#[derive(Clone, Copy, Debug, PartialEq, Eq)]
pub enum Next {
    /// So many bytes were put at the front of the buffer.
    Got(usize),
    /// There are no more bytes.
    End,
    /// None was given.
    Failed,
}

/// A source of bytes. A count of faults tells each failure; it stops at the last value of 64 bits.
pub trait Source {
    // the bytes given so far, where they are told
    ghost given: { Self → Option (List ℕ) };
    // it has answered that there are no more bytes
    ghost has_ended: { Self → Bool };

    ghost faults: { Self → ℕ };

    /// Puts at least one byte at the front of the buffer. Once it has answered `End`, it always does.
    fn next(&mut self, buf: &mut [u8]) -> Next
        requires { 0 < length buf.old }
        ensures got { IfGiven result (λ n. (0 < n) × (n ≤ length buf.old) × (given self.new ≡ option_map (λ bytes. bytes ++ take n buf.new) (given self.old))) }
        ensures none_given { UnlessGiven result (given self.new ≡ given self.old) }
        ensures same_length { length buf.new ≡ length buf.old }
        ensures ended { has_ended self.new ≡ (has_ended self.old || is_end result) }
        ensures stays_ended { has_ended self.old ≡ true → result ≡ Next.End }
        ensures never_falls { faults self.old ≤ faults self.new }
        ensures failed { OnNextFailed result (HasRisen (faults self.old) (faults self.new)) };
}
