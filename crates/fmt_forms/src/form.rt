//! How a conversion shows its argument.

ghost use Rattle.std.specs.Prelude.{◌≡◌};
ghost use Rattle.fmt_forms.specs.Forms.{goes_left, width_of, precision_of, form_of};

use fmt_directives::Spec;

/// The flags of a conversion, its width and its precision.
#[derive(Clone, Copy, Debug, PartialEq, Eq)]
pub struct Form {
    /// The flag `-`.
    pub left: bool,
    /// The flag `0`.
    pub zero: bool,
    /// The flag `+`.
    pub plus: bool,
    /// The flag space.
    pub space: bool,
    /// The flag `#`.
    pub alternate: bool,
    /// The width in bytes, at most 65,535.
    pub width: u32,
    /// The precision, at most 65,535.
    pub precision: Option<u32>,
}

fn goes_left(width: Option<i128>) -> bool
    ensures { result ≡ goes_left width }
{
    match width {
        Some(n) => n < 0,
        None => false,
    }
}

fn width_of(width: Option<i128>) -> u32
    ensures { result ≡ width_of width }
{
    match width {
        Some(n) => n.unsigned_abs().min(65_535) as u32,
        None => 0,
    }
}

fn precision_of(precision: Option<i128>) -> Option<u32>
    ensures { result ≡ precision_of precision }
{
    match precision {
        Some(n) => {
            if n < 0 {
                None
            } else {
                Some(n.unsigned_abs().min(65_535) as u32)
            }
        }
        None => None,
    }
}

/// The form that a conversion has with this width and precision.
#[inline(always)]
pub fn form_of(spec: Spec, width: Option<i128>, precision: Option<i128>) -> Form
    ensures { result ≡ form_of spec width precision }
{
    Form {
        left: spec.left || goes_left(width),
        zero: spec.zero,
        plus: spec.plus,
        space: spec.space,
        alternate: spec.alternate,
        width: width_of(width),
        precision: precision_of(precision),
    }
}
