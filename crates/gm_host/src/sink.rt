//! What a sink owes those who write to it.

ghost use Rattle.std.specs.Prelude.{◌≡◌, ◌≤◌, ℕ, Bool, List, Option, IsTrue, OnOk};
ghost use Rattle.gm_host.specs.Count.{counted, Rises};
ghost use Rattle.gm_host.specs.inner.Sink.{extended, ExtendsInPart, OnFailed, IsOutOfMemory, OnOutOfMemory};

use crate::fault::PutFault;

/// Where bytes are written to, one after the other.
///
/// Contracts see the bytes written so far, or that the sink does not tell. They see how many puts there
/// were, whatever they answered, and a count of faults that rises where a put answers `Failed`. A count
/// that has reached 18,446,744,073,709,551,615 stays there, and counts as risen from then on. They also
/// see of which types of sink no put ever answers that memory ran out.
pub trait Sink {
    ghost written: { Self → Option (List ℕ) };

    ghost puts: { Self → ℕ };

    ghost faults: { Self → ℕ };

    ghost never_wants_memory: { Bool };

    /// Appends the bytes, all of them where the answer is Ok.
    fn put(&mut self, bytes: &[u8]) -> Result<(), PutFault>
        ensures each_put_counts { puts self.new ≡ counted (puts self.old) }
        ensures faults_never_fall { faults self.old ≤ faults self.new }
        ensures ok { OnOk result (written self.new ≡ extended (written self.old) bytes.now) }
        ensures failed { OnFailed result (Rises (faults self.old) (faults self.new)) }
        ensures kept { OnFailed result (ExtendsInPart (written self.old) bytes.now (written self.new)) }
        ensures out_of_memory { OnOutOfMemory result (written self.new ≡ written self.old) }
        ensures no_fault { OnOutOfMemory result (faults self.new ≡ faults self.old) }
        ensures enough_memory { IsTrue never_wants_memory → ¬ IsOutOfMemory result }
        ensures ok_no_fault { OnOk result (faults self.new ≡ faults self.old) };
}
