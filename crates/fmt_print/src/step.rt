//! Directives by how they are shown.

ghost use Rattle.std.specs.Prelude.{◌≡◌, ◌≤◌, ◌-◌, ◌++◌, true, length, map, drop, Some, IfOk};
ghost use Rattle.std.specs.List.{flat_map};
ghost use Rattle.std.specs.Option.{option_to_list};
ghost use Rattle.fmt_directives.specs.declared.directive.Length.TheVariants as len;
ghost use Rattle.fmt_print.specs.Steps.{plain_spec, literal_directive, literal_start, shown_directive, directives_of, front_of, front_in, sixteen_at};

use fmt_directives::{Amount, Base, Directive, Length, PointerForm, Spec};
use std::alloc::{AllocError, Global};

/// A literal: the bytes of the format text from one place up to another, as they stand there.
#[derive(Clone, Copy)]
pub struct Literal {
    pub start: u32,
    pub end: u32,
}

/// What a conversion shows of its argument.
#[derive(Clone, Copy)]
pub enum Content {
    Number(Base),
    Letter,
    Text,
    Pointer(PointerForm),
}

/// What is shown after a literal. Most conversions are plain: they have no flag, no width and no precision.
#[derive(Clone, Copy)]
pub enum Shown {
    /// Nothing.
    Nothing,
    /// A further literal.
    Again(Literal),
    /// A plain decimal number with a sign.
    Signed(Length),
    /// A plain decimal number without a sign.
    Unsigned(Length),
    /// A plain text.
    Text,
    /// The name of the symbol at a plain address.
    Name,
    /// A plain address.
    Pointer(PointerForm),
    /// Any other conversion.
    Formed(Content, Spec),
}

/// One literal or none, and what is shown after it.
#[derive(Clone, Copy)]
pub struct Step {
    /// The first bytes of the literal. Most literals have no more.
    pub front: [u8; 16],
    pub literal: Option<Literal>,
    pub shown: Shown,
}

fn is_plain(spec: Spec) -> bool
    ensures { result ≡ true → spec ≡ plain_spec spec.length }
{
    let flagged = spec.left || spec.zero || spec.plus || spec.space || spec.alternate;
    !flagged && spec.width == Amount::Absent && spec.precision == Amount::Absent
}

fn is_usual(spec: Spec) -> bool
    ensures { result ≡ true → spec ≡ plain_spec len.Usual }
{
    is_plain(spec) && spec.length == Length::Usual
}

/// How a directive is shown.
fn shown_of(directive: Directive) -> Shown
    ensures { shown_directive result ≡ Some directive }
{
    match directive {
        Directive::Literal { start, end } => Shown::Again(Literal { start, end }),
        Directive::Number {
            spec,
            base: Base::Signed,
        } if is_plain(spec) => Shown::Signed(spec.length),
        Directive::Number {
            spec,
            base: Base::Unsigned,
        } if is_plain(spec) => Shown::Unsigned(spec.length),
        Directive::Text { spec } if is_usual(spec) => Shown::Text,
        Directive::Pointer {
            spec,
            form: PointerForm::Name,
        } if is_usual(spec) => Shown::Name,
        Directive::Pointer { spec, form } if is_usual(spec) => Shown::Pointer(form),
        Directive::Number { spec, base } => Shown::Formed(Content::Number(base), spec),
        Directive::Letter { spec } => Shown::Formed(Content::Letter, spec),
        Directive::Text { spec } => Shown::Formed(Content::Text, spec),
        Directive::Pointer { spec, form } => Shown::Formed(Content::Pointer(form), spec),
    }
}

/// The literal that directives begin with, and the directives after it.
fn first_literal(directives: &[Directive]) -> (Option<Literal>, &[Directive])
    ensures value { option_to_list (literal_directive result.0) ++ result.1.now ≡ directives.now }
    ensures within { length result.1.now ≤ length directives.now }
{
    match directives {
        [Directive::Literal { start, end }, rest @ ..] => {
            let literal = Literal {
                start: *start,
                end: *end,
            };
            (Some(literal), rest)
        }
        _ => (None, directives),
    }
}

/// How the first directive is shown, and the directives after it.
fn first_shown(directives: &[Directive]) -> (Shown, &[Directive])
    ensures value { option_to_list (shown_directive result.0) ++ result.1.now ≡ directives.now }
    ensures less { length result.1.now ≡ length directives.now - 1 }
{
    match directives {
        [first, rest @ ..] => (shown_of(*first), rest),
        [] => (Shown::Nothing, directives),
    }
}

/// Sets the first bytes to others.
pub fn put_first(into: &mut [u8], bytes: &[u8])
    requires { length bytes.now ≤ length into.old }
    ensures { into.new ≡ bytes.now ++ drop (length bytes.now) into.old }
{
    into[..bytes.len()].copy_from_slice(bytes);
}

/// The sixteen bytes that stand at a place of a text, with zeros for those after its end.
fn sixteen_at(text: &[u8], place: usize) -> [u8; 16]
    ensures { result ≡ sixteen_at place text.now }
{
    let behind = &text[place.min(text.len())..];
    let first = &behind[..behind.len().min(16)];
    let mut bytes = [0; 16];
    put_first(&mut bytes, first);
    bytes
}

/// The first bytes of a literal of a text.
fn front_of(text: &[u8], literal: Option<Literal>) -> [u8; 16]
    ensures { result ≡ sixteen_at (literal_start literal) text.now }
{
    match literal {
        Some(literal) => sixteen_at(text, literal.start as usize),
        None => sixteen_at(text, 0),
    }
}

/// The steps that show directives of a text.
#[tactic(auto, using(crate::proofs::StepLemmas::steps_more, crate::proofs::StepLemmas::steps_all, crate::proofs::StepLemmas::fronts_more))]
pub fn steps_of(
    alloc: Global,
    text: &[u8],
    directives: &[Directive],
) -> Result<Vec<Step>, AllocError>
    ensures shown { IfOk result (λ steps. flat_map directives_of steps.items ≡ directives.now) }
    ensures copied { IfOk result (λ steps. map front_of steps.items ≡ map (front_in text.now) steps.items) }
{
    let mut steps = Vec::with_capacity(alloc, directives.len() / 2 + 1)?;
    let mut left = directives;
    while !left.is_empty() {
        let (literal, behind) = first_literal(left);
        let (shown, rest) = first_shown(behind);
        let front = front_of(text, literal);
        steps.push(Step {
            front,
            literal,
            shown,
        })?;
        left = rest;
    }
    Ok(steps)
}
