//! Laws of BPDUs in frames.

ghost use Rattle.pb_bpdu.specs.Laws.{WrittenIsRead};

/// Shows that a written BPDU is read as the same BPDU.
pub fn what_is_written_is_read()
    ensures { WrittenIsRead }
{}
