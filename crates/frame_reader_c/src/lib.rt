// The frame reader for callers in C: include/nomiluvar_frame.h.
#![tactic(auto)]

ghost use Rattle.std.specs.Prelude.{length};
ghost use Rattle.frame.specs.Frame.{read_frame};
ghost use Rattle.frame.specs.Filled.{Filled};

// Writes the frame that a line is from byte 0 on and returns its length. Where the line is no frame, or the buffer has under 352 bytes, it returns 0 and
// leaves the buffer as it was.
#[unsafe(no_mangle)]
pub extern "C" fn nomiluvar_read_frame(line: &[u8], frame: &mut [u8]) -> usize
    ensures { Filled (read_frame line.now (length frame.old)) frame.old frame.new result }
{
    frame_reader::nomiluvar_read_frame(line, frame)
}
