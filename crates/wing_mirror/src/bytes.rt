// Bytes moved and laid in lent buffers.
ghost use Rattle.std.specs.Prelude.{◌≡◌, ◌++◌, ◌+◌, ◌-◌, ◌≤◌, length, take, drop};
ghost use Rattle.std.proofs.lemmas.List.Edits.{sets};

// Bytes at a place.
pub(crate) fn lay(out: &mut [u8], at: usize, src: &[u8])
    requires { at + length src.now ≤ length out.old }
    ensures { out.new ≡ sets out.old at src.now }
{
    out[at..at + src.len()].copy_from_slice(src);
}

// The bytes from `from` to `end` go up by `w`: a gap of `w` bytes is open at `from`.
pub(crate) fn open_gap(buf: &mut [u8], from: usize, end: usize, w: usize)
    requires { (from ≤ end) × (end + w ≤ length buf.old) }
    ensures { buf.new ≡ take (from + w) buf.old ++ (take (end - from) (drop from buf.old) ++ drop (end + w) buf.old) }
{
    // A loop: with a slice's own move a feed of falling ids took more instructions.
    for i in (from..end).rev() {
        buf[i + w] = buf[i];
    }
}
