ghost use Rattle.std.specs.Prelude.{◌≡◌};
ghost use Rattle.trace_base.specs.Allowed.{is_allowed, IsAllowed};

use crate::order::Order;

/// Where the fields of a sub-buffer stand (trace-cmd.dat.v6(5), `header_page`; the kernel's `struct buffer_data_page`).
///
/// All places and sizes are in bytes.
#[derive(Clone, Copy, Debug, PartialEq, Eq)]
pub struct Layout {
    /// The order of every number in it.
    pub order: Order,
    /// Where its 64-bit timestamp stands.
    pub time_at: u32,
    /// Where its commit word stands.
    pub commit_at: u32,
    /// How long the commit word is: 4 or 8, the kernel's long.
    pub commit_size: u32,
    /// Where its data begin. They end with the sub-buffer.
    pub data_at: u32,
    /// How long the whole sub-buffer is: a page of the machine or several (`buffer_subbuf_size_kb` of Linux 6.8 and later).
    pub page: u32,
    /// A file's header may give these places and sizes.
    pub ghost allowed: { IsAllowed time_at commit_at commit_size data_at page },
}

impl Layout {
    ghost use Rattle.std.specs.Prelude.{◌≤◌, ◌⊎◌};
    ghost use Rattle.trace_base.specs.Layout.{IsPlainLayout, layout_with};

    /// The layout of these places and sizes, or `None` where no file's header may give it.
    ///
    /// The commit word has 4 or 8 bytes. It and the timestamp stand apart from each other and in front of the data, which
    /// begin at a multiple of 4 of at most 256. The sub-buffer has 4,096 to 262,144 bytes.
    pub fn new(
        order: Order,
        time_at: u32,
        commit_at: u32,
        commit_size: u32,
        data_at: u32,
        page: u32,
    ) -> Option<Layout>
        ensures { result ≡ layout_with order time_at commit_at commit_size data_at page }
    {
        if is_allowed(time_at, commit_at, commit_size, data_at, page) {
            Some(Layout {
                order,
                time_at,
                commit_at,
                commit_size,
                data_at,
                page,
            })
        } else {
            None
        }
    }

    /// The layout that a kernel with a long of 4 or 8 bytes uses: the timestamp, the commit word, and the data after it.
    ///
    /// The sub-buffer has 4,096 to 262,144 bytes.
    pub fn plain(order: Order, long: u32, page: u32) -> Layout
        requires long { (long ≡ 4) ⊎ (long ≡ 8) }
        requires page_least { 4096 ≤ page }
        requires page_most { page ≤ 262144 }
        ensures { IsPlainLayout order long page result }
    {
        Layout {
            order,
            time_at: 0,
            commit_at: 8,
            commit_size: long,
            data_at: 8 + long,
            page,
        }
    }
}

fn is_allowed(time_at: u32, commit_at: u32, commit_size: u32, data_at: u32, page: u32) -> bool
    ensures { result ≡ is_allowed time_at commit_at commit_size data_at page }
{
    let time_end = time_at as u64 + 8;
    let commit_end = commit_at as u64 + commit_size as u64;
    (commit_size == 4 || commit_size == 8)
        && time_end <= data_at as u64
        && commit_end <= data_at as u64
        && (time_end <= commit_at as u64 || commit_end <= time_at as u64)
        && data_at <= 256
        && data_at % 4 == 0
        && 4096 <= page
        && page <= 262_144
}
