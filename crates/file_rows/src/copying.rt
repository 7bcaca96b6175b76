// Bytes copied to the front of a buffer.
ghost use Rattle.std.specs.Prelude.{◌≡◌, ◌≤◌, length, take};
ghost use Rattle.spec_file.specs.Over.{over};

// Copies the first n of these bytes to the front of a buffer.
pub fn put_front(out: &mut [u8], bytes: &[u8], n: usize)
    requires { (n ≤ length bytes.now) × (n ≤ length out.old) }
    ensures { out.new ≡ over (take n bytes.now) out.old }
{
    out[..n].copy_from_slice(&bytes[..n]);
}
