// Number fields in lent bytes: big-endian, of any width.
// A field that is not whole reads as 0, and writing one that has no room leaves the bytes as they were.
ghost use Rattle.std.specs.Prelude.{ℕ, ◌≡◌, ◌-◌, ◌<◌, ◌^◌, length, refl};
ghost use Rattle.std.proofs.Common.{rules};
ghost use Rattle.wing_node.specs.Signed.{signed, unsigned};
ghost use Rattle.wing_node.specs.Field.{bytes_of, field_at, put, put_at};

// A number that stands in bytes, the most significant first.
pub trait BigEndian: Copy + Default {
    // How many bytes it takes.
    ghost WIDTH: { ℕ };

    // The value that has these bits.
    ghost value: { ℕ → Self };

    // The bits of a value.
    ghost bits: { Self → ℕ };

    const WIDTH: usize;

    // The value in the first bytes, that of 0 where they are fewer.
    fn of_bytes(bytes: &[u8]) -> Self
        ensures { result ≡ value (field_at WIDTH bytes.now 0) };

    // Over the first bytes; where they are fewer, nothing is laid.
    fn lay_over(self, out: &mut [u8])
        ensures { out.new ≡ (put_at (bytes_of WIDTH (bits self)) 0 out.old).bytes };

    ghost takes_bytes: { 0 < WIDTH };

    ghost default_is_zero: { (x : Self) → Self.is_default x → x ≡ value 0 };
}

impl BigEndian for u16 {
    ghost WIDTH = { 2 };

    ghost value = { λ n. n };

    ghost bits = { λ n. n };

    const WIDTH: usize = 2;

    fn of_bytes(bytes: &[u8]) -> u16 {
        if bytes.len() < 2 {
            return 0;
        }
        u16::from_be_bytes([bytes[0], bytes[1]])
    }

    fn lay_over(self, out: &mut [u8]) {
        if 2 <= out.len() {
            out[..2].copy_from_slice(&self.to_be_bytes());
        }
    }

    ghost takes_bytes = { Prim.search rules };

    ghost default_is_zero = { λ x h. h };
}

impl BigEndian for u32 {
    ghost WIDTH = { 4 };

    ghost value = { λ n. n };

    ghost bits = { λ n. n };

    const WIDTH: usize = 4;

    fn of_bytes(bytes: &[u8]) -> u32 {
        if bytes.len() < 4 {
            return 0;
        }
        u32::from_be_bytes([bytes[0], bytes[1], bytes[2], bytes[3]])
    }

    fn lay_over(self, out: &mut [u8]) {
        if 4 <= out.len() {
            out[..4].copy_from_slice(&self.to_be_bytes());
        }
    }

    ghost takes_bytes = { Prim.search rules };

    ghost default_is_zero = { λ x h. h };
}

impl BigEndian for i32 {
    ghost WIDTH = { 4 };

    ghost value = { signed 31 };

    ghost bits = { unsigned 31 };

    const WIDTH: usize = 4;

    fn of_bytes(bytes: &[u8]) -> i32 {
        u32::of_bytes(bytes).cast_signed()
    }

    fn lay_over(self, out: &mut [u8]) {
        self.cast_unsigned().lay_over(out);
    }

    ghost takes_bytes = { Prim.search rules };

    ghost default_is_zero = { λ x h. h };
}

// The bytes from a place on.
pub fn left(s: &[u8], at: usize) -> usize
    ensures { result ≡ length s.now - at }
{
    s.len().saturating_sub(at)
}

// The number in the bytes from a place on, 0 where fewer are left.
pub fn number_at<T: BigEndian>(s: &[u8], at: usize) -> T
    ensures { result ≡ T.value (field_at T.WIDTH s.now at) }
{
    if left(s, at) < T::WIDTH {
        return T::default();
    }
    T::of_bytes(&s[at..at + T::WIDTH])
}

// The answer says whether there was room.
pub fn put_number<T: BigEndian>(out: &mut [u8], at: usize, n: T) -> bool
    ensures { put result out.new ≡ put_at (bytes_of T.WIDTH (T.bits n)) at out.old }
{
    if left(out, at) < T::WIDTH {
        return false;
    }
    n.lay_over(&mut out[at..at + T::WIDTH]);
    true
}
