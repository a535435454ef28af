ghost use Rattle.std.specs.Prelude.{◌≡◌, min, length, take, drop};

// Copies as many bytes as there are and as fit.
pub(crate) fn copy_prefix(bytes: &[u8], buf: &mut [u8]) -> usize
    ensures count { result ≡ min (length bytes.now) (length buf.old) }
    ensures prefix { take result buf.new ≡ take result bytes.now }
    ensures after { drop result buf.new ≡ drop result buf.old }
{
    let n = bytes.len().min(buf.len());
    buf[..n].copy_from_slice(&bytes[..n]);
    n
}
