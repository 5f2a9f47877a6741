//! Laws of this crate's definitions. Each is the contract of a function that does nothing.

ghost use Rattle.std.specs.Prelude.{◌≡◌, [], All, List, None, IfSome};
ghost use Rattle.subpage.specs.Arrangement.{CpusRise};
ghost use Rattle.multi_report.specs.Order.{FileItem, ShownFile, IsArranged, IsLeast, all_cuts, arranged, cut_of_files, reached};
ghost use Rattle.multi_report.specs.Merge.{merged};

/// The items of all files up to the least cut are those that each file reaches, merged by key and file up to the least of
/// the files' cuts.
pub fn merging()
    ensures { (files : List ShownFile) → reached files ≡ merged files }
{}

/// The items of files whose processors' numbers rise have exactly one arrangement, and it is `arranged`.
pub fn one_arrangement()
    ensures arranged { (files : List ShownFile) → All (λ file. CpusRise file.parts) files → IsArranged files (arranged files) }
    ensures one { (files : List ShownFile) (xs ys : List FileItem) → IsArranged files xs → IsArranged files ys → xs ≡ ys }
{}

/// Where files have a cut it is the least of all their cuts, and where they have none there is no malformed sub-buffer.
pub fn least_cut()
    ensures least { (files : List ShownFile) → IfSome (cut_of_files files) (IsLeast (all_cuts files)) }
    ensures none { (files : List ShownFile) → cut_of_files files ≡ None → all_cuts files ≡ [] }
{}
