// The table of a new file, known before its first byte.

ghost use Rattle.std.specs.Prelude.{◌≡◌, length};
ghost use Rattle.new_files.specs.Padding.{IsPage};
ghost use Rattle.restore_tool.specs.Copying.{files_seen};
ghost use Rattle.restore_tool.specs.Placed.{ArePlaced};

use new_files::gap;
use trace_base::Part;
use trace_outside::File;

/// Fills the table: the data files follow one another from the place on, each from the next multiple of the page. Numbers are
/// told modulo 2^64.
pub(crate) fn place_files<F: File>(page: u32, place: u64, files: &[F], parts: &mut [Part])
    requires page { IsPage page }
    requires each { length parts.old ≡ length files.now }
    ensures { ArePlaced page place (files_seen F.File files.now) parts.new }
{
    let mut place = place;
    for i in 0..files.len() {
        let missing = u64::from(gap(page, place));
        let offset = place.wrapping_add(missing);
        let size = files[i].len();
        parts[i] = Part { offset, size };
        place = offset.wrapping_add(size);
    }
}
