// The lines on standard output, which were gathered in a buffer.
ghost use Rattle.std.specs.Prelude.{true, ◌≡◌, ◌≤◌, length};

// The number of standard output among the open files.
const STDOUT: i32 = 1;

// Writes the bytes before place `at`; whether that went well. A place behind the end of the buffer is none.
pub fn write_out(out: &[u8], at: usize) -> bool
    ensures { result ≡ true → at ≤ length out.now }
{
    if at <= out.len() {
        return io::write_all(STDOUT, &out[..at]);
    }
    false
}
