ghost use Rattle.std.specs.Prelude.{◌≡◌, ◌≤◌, ◌++◌, drop, length, take};

/// So many bytes stand in a text itself, and take no memory of their own: most names have fewer. With them a text is as large as
/// one whose bytes stand elsewhere.
pub(crate) const FEW: usize = 30;

/// Few bytes: the first of these.
#[derive(Drop)]
pub(crate) struct FewBytes {
    len: u8,
    bytes: [u8; FEW],
    ghost within: { len ≤ 30 },
}

/// Sets the first bytes to a text.
fn put_first(into: &mut [u8], text: &[u8])
    requires { length text.now ≤ length into.old }
    ensures { into.new ≡ text.now ++ drop (length text.now) into.old }
{
    into[..text.len()].copy_from_slice(text);
}

impl FewBytes {
    /// A copy of few bytes.
    pub fn copy(text: &[u8]) -> FewBytes
        requires { length text.now ≤ FEW }
        ensures { take result.len result.bytes ≡ text.now }
    {
        let mut bytes = [0; FEW];
        put_first(&mut bytes, text);
        FewBytes {
            len: text.len() as u8,
            bytes,
        }
    }

    /// The bytes.
    #[inline(always)]
    pub fn as_bytes(&self) -> &[u8]
        ensures { result.now ≡ take self.now.len self.now.bytes }
    {
        &self.bytes[..self.len as usize]
    }
}
