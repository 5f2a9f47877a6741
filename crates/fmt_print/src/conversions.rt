//! What each conversion shows of its argument.

ghost use Rattle.std.specs.Prelude.{◌≡◌, IfSome};
ghost use Rattle.std.specs.Option.{unwrap_or};
ghost use Rattle.symbols.specs.NameMap.{first_at};
ghost use Rattle.trace_base.specs.Kept.{until_nul};
ghost use Rattle.fmt_expr.specs.TreeView.{tree_of};
ghost use Rattle.fmt_eval.specs.Texts.{text_of};
ghost use Rattle.fmt_eval.specs.Values.{given};
ghost use Rattle.fmt_eval.specs.Pieces.{hexadecimal};
ghost use Rattle.fmt_forms.specs.Shows.{Shows};
ghost use Rattle.fmt_forms.specs.Texts.{cut_to, padded};
ghost use Rattle.fmt_print.specs.Addresses.{number_address, bytes_address, pointer_text};
ghost use Rattle.fmt_print.specs.ArgumentView.{argument_tree};
ghost use Rattle.fmt_print.specs.Printed.{bits_of, number_text};
ghost use Rattle.fmt_print.specs.Strings.{letter_text, string_text};

use crate::argument::{Argument, source_of};
use crate::flow::{Flow, flowing};
use crate::plan::PrintPlan;
use crate::step::Content;
use fmt_directives::{Base, Length, PointerForm};
use fmt_eval::{bytes, cast_bits, only_flag, put_text};
use fmt_expr::{Expr, Kind};
use fmt_forms::{
    Form, is_signed, show_address, show_cut, show_integer, show_offset, show_short, show_text,
    show_until_nul,
};
use symbols::Symbols;
use trace_base::{Rec, Tail, bytes_of, long_text_len};

/// The form of a conversion without a flag, a width and a precision.
pub static PLAIN: Form = Form {
    left: false,
    zero: false,
    plus: false,
    space: false,
    alternate: false,
    width: 0,
    precision: None,
};

/// How many bits a length asks for.
fn bits_of(length: Length, long: u32) -> u32
    ensures { result ≡ bits_of length long }
{
    match length {
        Length::Usual => 32,
        Length::CharSize => 8,
        Length::ShortSize => 16,
        Length::LongSize | Length::SizeSize | Length::DiffSize => if long == 4 { 32 } else { 64 },
        Length::LongLongSize | Length::MaxSize | Length::BigSize => 64,
    }
}

/// The text of a tree without operands, where it lies in memory, perhaps with a NUL and more after it.
#[inline(always)]
#[tactic(auto, using(crate::proofs::TextLemmas::nul_once))]
fn text_at_once<'a>(expr: &'a Expr, rec: &Rec<'a>) -> Option<&'a [u8]>
    ensures { IfSome result (λ text. until_nul text.now ≡ until_nul (text_of (given rec.now) (tree_of expr.now))) }
{
    match expr {
        Expr::Literal { text } => Some(text.as_bytes()),
        Expr::FieldText { field } => Some(bytes_of(rec, field)),
        Expr::Flags { value, entries, .. } => only_flag(value, entries.as_slice(), rec),
        _ => None,
    }
}

/// Shows a name in its width. Most have none, and are put without a call.
#[inline(always)]
#[tactic(auto, using(fmt_forms::proofs::Gathering::put_shown, fmt_forms::proofs::PlainLemmas::padded_bare))]
fn show_name(form: &Form, name: &[u8], into: &mut Tail<'_>)
    ensures { Shows into.old into.new (padded form.now.left form.now.width name.now) }
{
    if form.width == 0 {
        into.put_piece(name);
    } else {
        show_text(form, name, into);
    }
}

/// What is printed from.
#[derive(Clone, Copy)]
pub struct Printer<'a> {
    pub plan: &'a PrintPlan,
    pub rec: &'a Rec<'a>,
    pub symbols: &'a Symbols,
}

impl<'a> Printer<'a> {
    ghost use Rattle.fmt_print.specs.Contents.{content_text};
    ghost use Rattle.fmt_print.specs.Sources.{source};

    /// Shows a number of any length.
    #[inline(never)]
    fn any_number(
        &self,
        base: Base,
        length: Length,
        form: &Form,
        argument: &Argument,
        into: &mut Tail<'_>,
    )
        ensures { Shows into.old into.new (number_text (given self.now.rec.now) (source self.now).long length base form.now (argument_tree argument.now)) }
    {
        let bits = bits_of(length, self.plan.long());
        let shown = cast_bits(bits, is_signed(base), argument.number(self.rec));
        show_integer(base, form, shown.is_negative(), shown.magnitude(), into);
    }

    /// Shows a number of any length. Most that are no ints are read from eight bytes, and are shown as 64 bits.
    #[inline(always)]
    fn long_number(
        &self,
        base: Base,
        length: Length,
        form: &Form,
        argument: &Argument,
        into: &mut Tail<'_>,
    )
        ensures { Shows into.old into.new (number_text (given self.now.rec.now) (source self.now).long length base form.now (argument_tree argument.now)) }
    {
        let bits = bits_of(length, self.plan.long());
        match argument.whole(self.rec) {
            Some(whole) if bits == 64 => {
                let shown = cast_bits(bits, is_signed(base), whole);
                show_integer(base, form, shown.is_negative(), shown.magnitude(), into);
            }
            _ => self.any_number(base, length, form, argument, into),
        }
    }

    /// Shows a signed number of any length, compiled for that base alone.
    #[inline(never)]
    fn long_signed(&self, length: Length, form: &Form, argument: &Argument, into: &mut Tail<'_>)
        ensures { Shows into.old into.new (number_text (given self.now.rec.now) (source self.now).long length Base.Signed form.now (argument_tree argument.now)) }
    {
        self.long_number(Base::Signed, length, form, argument, into);
    }

    /// Shows an unsigned decimal number of any length, compiled for that base alone.
    #[inline(never)]
    fn long_unsigned(&self, length: Length, form: &Form, argument: &Argument, into: &mut Tail<'_>)
        ensures { Shows into.old into.new (number_text (given self.now.rec.now) (source self.now).long length Base.Unsigned form.now (argument_tree argument.now)) }
    {
        self.long_number(Base::Unsigned, length, form, argument, into);
    }

    /// Shows a number of any length in any base. Most that come here are hexadecimal, for which a way is compiled alone.
    #[inline(never)]
    fn long_other(
        &self,
        base: Base,
        length: Length,
        form: &Form,
        argument: &Argument,
        into: &mut Tail<'_>,
    )
        ensures { Shows into.old into.new (number_text (given self.now.rec.now) (source self.now).long length base form.now (argument_tree argument.now)) }
    {
        match base {
            Base::Hex => self.long_number(Base::Hex, length, form, argument, into),
            _ => self.any_number(base, length, form, argument, into),
        }
    }

    /// Shows a number. Most are ints that are read from four bytes, whose kind is known when this is compiled.
    #[inline(always)]
    fn number(
        &self,
        base: Base,
        length: Length,
        form: &Form,
        argument: &Argument,
        into: &mut Tail<'_>,
    )
        ensures { Shows into.old into.new (number_text (given self.now.rec.now) (source self.now).long length base form.now (argument_tree argument.now)) }
    {
        match argument.half(self.rec) {
            Some(half) if length == Length::Usual => {
                let shown = cast_bits(32, is_signed(base), half);
                show_integer(base, form, shown.is_negative(), shown.magnitude(), into);
            }
            _ => match base {
                Base::Signed => self.long_signed(length, form, argument, into),
                Base::Unsigned => self.long_unsigned(length, form, argument, into),
                _ => self.long_other(base, length, form, argument, into),
            },
        }
    }

    /// Shows what `s` shows of a number: the printk format that stands there, or else the address.
    #[inline(never)]
    fn number_string(&self, form: &Form, n: u64, into: &mut Tail<'_>)
        ensures { Shows into.old into.new (padded form.now.left form.now.width (cut_to form.now.precision (unwrap_or (first_at n self.now.symbols.now.printk) (hexadecimal n)))) }
    {
        match self.symbols.printk_at(n) {
            Some(text) => show_cut(form, text, into),
            None => show_address(form, form.precision, n, into),
        }
    }

    /// Shows the text of a tree.
    #[inline(never)]
    fn tree_text(&self, form: &Form, tree: &Expr, into: &mut Tail<'_>)
        ensures { Shows into.old into.new (padded form.now.left form.now.width (cut_to form.now.precision (until_nul (text_of (given self.now.rec.now) (tree_of tree.now))))) }
    {
        let tree = source_of(tree, self.rec);
        match text_at_once(tree, self.rec) {
            Some(text) => show_short(form, text, into),
            None => flowing(form, Flow::Text(tree, form.precision), self.rec, into),
        }
    }

    /// Shows the text of an argument that is none at a known place. Most are names, and are shown as they are.
    #[inline(always)]
    #[tactic(auto, using(crate::proofs::Contents::named_text))]
    fn source_text(&self, form: &Form, argument: &Argument, into: &mut Tail<'_>)
        ensures { Shows into.old into.new (padded form.now.left form.now.width (cut_to form.now.precision (until_nul (text_of (given self.now.rec.now) (argument_tree argument.now))))) }
    {
        let bare = form.width == 0 && form.precision.is_none();
        let source = argument.source(self.rec);
        match source.name {
            Some(name) if bare => name.show(into),
            _ => self.tree_text(form, source.tree, into),
        }
    }

    /// Shows what `s` shows of any argument.
    #[inline(always)]
    #[tactic(auto, using(crate::proofs::Contents::string_of_number, crate::proofs::Contents::string_of_text, crate::proofs::Contents::string_of_bytes))]
    fn any_text(&self, form: &Form, argument: &Argument, into: &mut Tail<'_>)
        ensures { Shows into.old into.new (string_text (given self.now.rec.now) self.now.symbols.now form.now (argument_tree argument.now)) }
    {
        let rec = self.rec;
        match argument.kind {
            Kind::Number => self.number_string(form, argument.address(rec), into),
            Kind::Text => self.source_text(form, argument, into),
            Kind::Bytes => show_until_nul(form, bytes(&argument.tree, rec), into),
        }
    }

    /// Shows what `s` shows of an argument. Most stand at a known place, and are shown as they are.
    #[inline(always)]
    #[tactic(auto, using(fmt_forms::proofs::Gathering::put_shown, crate::proofs::Contents::placed_text))]
    fn text(&self, form: &Form, argument: &Argument, into: &mut Tail<'_>)
        ensures { Shows into.old into.new (string_text (given self.now.rec.now) self.now.symbols.now form.now (argument_tree argument.now)) }
    {
        let bare = form.width == 0 && form.precision.is_none();
        match argument.placed_text(self.rec) {
            Some(text) if bare && text.len() >= 16 => into.put_front(text, long_text_len(text)),
            _ => self.any_text(form, argument, into),
        }
    }

    /// Shows the symbol that stands at a number and how far after its address that is, or else the address. It is a call, so
    /// that what is shown most stays small enough to be shown in place.
    #[inline(never)]
    fn name_and_offset(&self, form: &Form, n: u64, into: &mut Tail<'_>)
        ensures { Shows into.old into.new (padded form.now.left form.now.width (number_address PointerForm.NameOffset n self.now.symbols.now)) }
    {
        match self.symbols.name_at(n) {
            Some((name, behind)) => show_offset(form, name, behind, into),
            None => show_address(form, None, n, into),
        }
    }

    /// Shows what `p` shows of a number: the address, or the symbol that stands there.
    #[inline(always)]
    #[tactic(auto, using(fmt_forms::proofs::Gathering::kept_shown, fmt_forms::proofs::LaidLemmas::padded_alone))]
    fn number_address(&self, show: PointerForm, form: &Form, n: u64, into: &mut Tail<'_>)
        ensures { Shows into.old into.new (padded form.now.left form.now.width (number_address show n self.now.symbols.now)) }
    {
        match show {
            PointerForm::Name => match self.symbols.name_at(n) {
                Some((name, _)) => show_name(form, name, into),
                None => show_address(form, None, n, into),
            },
            PointerForm::NameOffset => self.name_and_offset(form, n, into),
            PointerForm::Plain | PointerForm::Ip4 | PointerForm::Mac => {
                show_address(form, None, n, into);
            }
        }
    }

    /// Shows what `p` shows of bytes: the address of the network that they begin with, and else 0.
    fn bytes_address(&self, show: PointerForm, form: &Form, bytes: &[u8], into: &mut Tail<'_>)
        ensures { Shows into.old into.new (padded form.now.left form.now.width (bytes_address show bytes.now)) }
    {
        match show {
            PointerForm::Ip4 => flowing(form, Flow::Ip4(bytes), self.rec, into),
            PointerForm::Mac => flowing(form, Flow::Mac(bytes), self.rec, into),
            PointerForm::Plain | PointerForm::Name | PointerForm::NameOffset => {
                show_address(form, None, 0, into);
            }
        }
    }

    /// Shows what `p` shows of a text, of which six bytes are enough.
    #[inline(never)]
    #[tactic(auto, using(crate::proofs::TextLemmas::first_six), unfolding(trace_base::specs::Kept::put))]
    fn text_address(&self, show: PointerForm, form: &Form, tree: &Expr, into: &mut Tail<'_>)
        ensures { Shows into.old into.new (padded form.now.left form.now.width (bytes_address show (text_of (given self.now.rec.now) (tree_of tree.now)))) }
    {
        let mut room = [0; 6];
        let mut tail = Tail::new(&mut room);
        put_text(tree, self.rec, &mut tail);
        self.bytes_address(show, form, tail.kept(), into);
    }

    /// Shows what `p` shows of an argument, however it is read.
    #[inline(never)]
    #[tactic(auto, using(crate::proofs::Contents::address_of_number, crate::proofs::Contents::address_of_text, crate::proofs::Contents::address_of_bytes))]
    fn any_pointer(&self, show: PointerForm, form: &Form, argument: &Argument, into: &mut Tail<'_>)
        ensures { Shows into.old into.new (pointer_text show (given self.now.rec.now) self.now.symbols.now form.now (argument_tree argument.now)) }
    {
        let rec = self.rec;
        let tree = &argument.tree;
        match argument.kind {
            Kind::Number => self.number_address(show, form, argument.address(rec), into),
            Kind::Text => self.text_address(show, form, tree, into),
            Kind::Bytes => self.bytes_address(show, form, bytes(tree, rec), into),
        }
    }

    /// Shows what `p` shows of an argument. Most are addresses that are read from eight bytes.
    #[inline(always)]
    #[tactic(auto, using(crate::proofs::Contents::address_of_number))]
    fn pointer(&self, show: PointerForm, form: &Form, argument: &Argument, into: &mut Tail<'_>)
        ensures { Shows into.old into.new (pointer_text show (given self.now.rec.now) self.now.symbols.now form.now (argument_tree argument.now)) }
    {
        match argument.whole(self.rec) {
            Some(whole) => self.number_address(show, form, whole.pattern(), into),
            None => self.any_pointer(show, form, argument, into),
        }
    }

    /// Shows what `c` shows of an argument.
    #[inline(never)]
    fn letter(&self, form: &Form, argument: &Argument, into: &mut Tail<'_>)
        ensures { Shows into.old into.new (letter_text (given self.now.rec.now) form.now (argument_tree argument.now)) }
    {
        show_text(form, &[(argument.address(self.rec) % 256) as u8], into);
    }

    /// Shows what a conversion shows of its argument.
    #[inline(always)]
    pub fn content(
        &self,
        what: Content,
        length: Length,
        form: &Form,
        argument: &Argument,
        into: &mut Tail<'_>,
    )
        ensures { Shows into.old into.new (content_text (source self.now) what length form.now (argument_tree argument.now)) }
    {
        match what {
            Content::Number(base) => self.number(base, length, form, argument, into),
            Content::Letter => self.letter(form, argument, into),
            Content::Text => self.text(form, argument, into),
            Content::Pointer(show) => self.pointer(show, form, argument, into),
        }
    }
}
