ghost use Rattle.std.specs.Prelude.{◌≡◌, ℕ, List, ◌<◌, ◌^◌, ◌≤◌, ◌+◌, ◌++◌, length, take, drop};
ghost use Rattle.std.specs.List.{last_or};
ghost use Rattle.trace_base.specs.Kept.{Kept, nothing, nul_after, text_end, put, put_held, cut, watched, of_text};
ghost use Rattle.trace_base.specs.TailView.{kept, held, lent};

use crate::nul::text_len;

/// Text that goes into a slice: the first bytes of it are kept, as many as the slice holds, and its true length is told.
///
/// When a tail is given up, the slice that it was made with begins with its kept bytes. No call fails or takes memory.
#[derive(Drop)]
pub struct Tail<'a> {
    into: &'a mut [u8],
    total: u64,
    last: Option<u8>,
    watches: bool,
    nul: Option<u64>,
}

impl<'a> Tail<'a> {
    /// Nothing was put yet.
    pub fn new(into: &'a mut [u8]) -> Tail<'a>
        ensures same_slice { lent result ≡ into.entry.ghost_name }
        ensures value { kept result ≡ nothing (length into.old) }
    {
        Tail {
            into,
            total: 0,
            last: None,
            watches: false,
            nul: None,
        }
    }

    /// Puts a piece after what was put.
    #[inline(always)]
    pub fn put(&mut self, piece: &[u8])
        ensures same_slice { lent self.new ≡ lent self.old }
        ensures value { kept self.new ≡ put (kept self.old) piece.now }
        ensures held { held self.new ≡ put_held (held self.old) piece.now }
    {
        let at = self.total.min(self.into.len() as u64) as usize;
        fill(&mut self.into[at..], piece);
        note_nul(self.watches, &mut self.nul, self.total, piece);
        self.total = self.total.saturating_add(piece.len() as u64);
        note_last(&mut self.last, piece);
    }

    /// Puts the first `len` bytes of a longer text, as pieces of a line are put. Of the tail the contract tells what stays true
    /// through cuts.
    #[inline(always)]
    pub fn put_front(&mut self, text: &[u8], len: usize)
        requires within { len ≤ length text.now }
        requires longer { 16 ≤ length text.now }
        ensures same_slice { lent self.new ≡ lent self.old }
        ensures held { held self.new ≡ put_held (held self.old) (take len text.now) }
    {
        if len <= 16 && self.total.saturating_add(16) <= self.into.len() as u64 {
            // Sixteen bytes are copied, however many count: a copy of a fixed length needs no call, and one by way of a
            // place of its own no test whether the texts overlap.
            let at = self.total as usize;
            let mut piece = [0; 16];
            piece.copy_from_slice(&text[..16]);
            self.into[at..at + 16].copy_from_slice(&piece);
            self.total += len as u64;
        } else {
            self.put(&text[..len]);
        }
    }

    /// Puts a piece of a line whose length is not known beforehand. Of the tail the contract tells what stays true through
    /// cuts.
    #[inline(always)]
    pub fn put_piece(&mut self, piece: &[u8])
        ensures same_slice { lent self.new ≡ lent self.old }
        ensures held { held self.new ≡ put_held (held self.old) piece.now }
    {
        let len = piece.len();
        if len < 8 || len > 32 || self.total.saturating_add(len as u64) > self.into.len() as u64 {
            return self.put_any_piece(piece);
        }
        let at = self.total as usize;
        copy_short(&mut self.into[at..at + len], piece);
        self.total += len as u64;
    }

    #[inline(never)]
    fn put_any_piece(&mut self, piece: &[u8])
        ensures same_slice { lent self.new ≡ lent self.old }
        ensures held { held self.new ≡ put_held (held self.old) piece.now }
    {
        self.put(piece);
    }

    /// The true length of what was put. It saturates at the greatest number of 64 bits.
    pub fn total(&self) -> u64
        ensures value { result ≡ (kept self.now).total }
        ensures room { (kept self.now).room < 2 ^ 63 }
    {
        self.total
    }

    /// The first bytes of what was put, as many as there is room for.
    pub fn kept(&self) -> &[u8]
        ensures { result.now ≡ (kept self.now).bytes }
    {
        let count = self.total.min(self.into.len() as u64) as usize;
        &self.into[..count]
    }

    /// The last byte that was put since the last cut, whether it was kept or not.
    pub fn last(&self) -> Option<u8>
        ensures { result ≡ (kept self.now).last }
    {
        self.last
    }

    /// Only the first `to` bytes of what was put count from now on.
    pub fn cut(&mut self, to: u64)
        requires { to ≤ (kept self.old).total }
        ensures same_slice { lent self.new ≡ lent self.old }
        ensures value { kept self.new ≡ cut (kept self.old) to }
    {
        self.total = to;
        self.last = None;
        self.watches = false;
        self.nul = None;
    }

    /// From now on what is put is watched for its first NUL, up to the next cut.
    pub fn watch(&mut self)
        ensures same_slice { lent self.new ≡ lent self.old }
        ensures value { kept self.new ≡ watched (kept self.old) }
    {
        self.watches = true;
        self.nul = None;
    }

    /// Where a watched text ends: at its first NUL, or else at the end of what was put.
    pub fn text_end(&self) -> u64
        ensures { result ≡ text_end (kept self.now) }
    {
        match self.nul {
            Some(place) => place,
            None => self.total(),
        }
    }
}

// The first of the piece, as many as there is room for. A piece that fits is copied whole, so that one of a length known at
// compile time needs no call.
#[inline(always)]
fn fill(into: &mut [u8], piece: &[u8])
    ensures { into.new ≡ take (length into.old) (piece.now ++ drop (length piece.now) into.old) }
{
    if piece.len() <= into.len() {
        into[..piece.len()].copy_from_slice(piece);
    } else {
        into.copy_from_slice(&piece[..into.len()]);
    }
}

// A piece of 8 to 32 bytes, without a call.
#[inline(always)]
fn copy_short(into: &mut [u8], piece: &[u8])
    requires same { length into.old ≡ length piece.now }
    requires least { 8 ≤ length piece.now }
    requires most { length piece.now ≤ 32 }
    ensures { into.new ≡ piece.now }
{
    if piece.len() < 16 {
        copy_by_ends::<8>(into, piece);
    } else {
        copy_by_ends::<16>(into, piece);
    }
}

// A piece of `N` to twice as many bytes, by its first and its last `N`, which may overlap: two copies of a fixed length need
// no call. Each goes by way of a place of its own, as in `put_front`.
#[inline(always)]
fn copy_by_ends<const N: usize>(into: &mut [u8], piece: &[u8])
    requires same { length into.old ≡ length piece.now }
    requires least { N ≤ length piece.now }
    requires most { length piece.now ≤ N + N }
    ensures { into.new ≡ piece.now }
{
    let rest = piece.len() - N;
    let mut front = [0; N];
    front.copy_from_slice(&piece[..N]);
    let mut back = [0; N];
    back.copy_from_slice(&piece[rest..]);
    into[..N].copy_from_slice(&front);
    into[rest..].copy_from_slice(&back);
}

// The last byte of the piece, or else the one before.
#[inline(always)]
#[tactic(auto, using(crate::proofs::TailFills::last_some, crate::proofs::TailFills::last_none))]
fn note_last(last: &mut Option<u8>, piece: &[u8])
    ensures { last.new ≡ last_or last.old piece.now }
{
    if let Some(byte) = piece.last() {
        *last = Some(*byte);
    }
}

// The place of the first NUL, with a piece that is put after so many bytes. A text that is not watched pays for one branch.
#[inline(always)]
fn note_nul(watches: bool, nul: &mut Option<u64>, total: u64, piece: &[u8])
    ensures { nul.new ≡ nul_after watches nul.old total piece.now }
{
    if watches && nul.is_none() {
        let len = text_len(piece);
        if len < piece.len() {
            *nul = Some(total.saturating_add(len as u64));
        }
    }
}

/// Putting two pieces one after the other is putting the two joined.
#[tactic(auto, using(crate::proofs::TailJoins::put_put))]
pub fn puts_join()
    ensures { (kept : Kept) (one two : List ℕ) → put (put kept one) two ≡ put kept (one ++ two) }
{}

/// What a tail keeps of a text, and tells of it.
#[tactic(auto, unfolding(crate::specs::Kept::put))]
pub fn kept_of_text()
    ensures { (room : ℕ) (text : List ℕ) → put (nothing room) text ≡ of_text room text }
{}
