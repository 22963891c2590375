//! What holds of every trace.
ghost use Rattle.std.specs.Prelude.{◌≡◌, ℕ, List};
ghost use Rattle.ipc_ids.specs.declared.entry.Entry.{Entry};
ghost use Rattle.trace_reader.specs.Trace.{IsTrace};

/// Bytes are the text of one list of entries at most, of those whose values fit their types and that
/// tell of `= EOK` as done.
pub fn bytes_are_one_trace()
    ensures { (es fs : List Entry) (bytes : List ℕ) → IsTrace es bytes → IsTrace fs bytes
        → es ≡ fs }
{}
