//! Arguments, and what is known of them before any record is read.

ghost use Rattle.std.specs.Prelude.{◌≡◌, true, IfSome};
ghost use Rattle.std.proofs.Props.{props};
ghost use Rattle.fmt_expr.specs.Kinds.{kind_of};
ghost use Rattle.fmt_expr.specs.declared.kinds.Kind.TheVariants.{Number, Text};
ghost use Rattle.fmt_expr.specs.Tree as tree;
ghost use Rattle.fmt_expr.specs.TreeView.{tree_of};
ghost use Rattle.fmt_eval.specs.Reads.{ReadsAs, TestsAs};
ghost use Rattle.trace_base.specs.Kept.{until_nul};
ghost use Rattle.fmt_eval.specs.Texts.{text_of};
ghost use Rattle.fmt_eval.specs.Values.{given, number_of};
ghost use Rattle.fmt_print.specs.Known.{is_whole, test_in, StandsAt};
ghost use Rattle.fmt_print.specs.Names.{name_text, yes_in, no_in, IsNamed};

use crate::name::Name;
use fmt_eval::{Num, Read, Test, holds, holds_by, number_by, read_of, test_of};
use fmt_expr::{Expr, Kind, kind};
use trace_base::{Field, FieldPlace, Rec};

/// Where a text of fixed length stands in the payload of each record.
#[derive(Clone, Copy)]
pub struct TextSlot {
    pub at: u32,
    pub len: u32,
}

/// What gives the text of an argument over a record.
#[derive(Clone, Copy)]
pub struct Source<'a> {
    /// The name that it is, if it is known to be one.
    pub name: Option<&'a Name>,
    /// A tree whose text it is.
    pub tree: &'a Expr,
}

/// An argument: its tree, and what is known of it before any record is read.
#[derive(Drop)]
pub struct Argument {
    pub(crate) tree: Expr,
    pub(crate) kind: Kind,
    /// How its number is read.
    read: Read,
    /// How the test of a choice is made.
    test: Test,
    /// Where its text stands.
    place: Option<TextSlot>,
    /// What its text is where the test of a choice holds, and where it does not, if these are names.
    yes: Option<Name>,
    no: Option<Name>,
    ghost kinds: { kind ≡ kind_of (tree_of tree) } by { Prim.hlevel props },
    ghost reads: { ReadsAs read (tree_of tree) } by { Prim.hlevel props },
    ghost wholes: { is_whole read ≡ true → kind ≡ Number } by { Prim.hlevel props },
    ghost tests: { TestsAs test (test_in (tree_of tree)) } by { Prim.hlevel props },
    ghost stands: { IfSome place (StandsAt (tree_of tree)) } by { Prim.hlevel props },
    ghost yes_named: { IfSome yes (IsNamed (yes_in (tree_of tree))) } by { Prim.hlevel props },
    ghost no_named: { IfSome no (IsNamed (no_in (tree_of tree))) } by { Prim.hlevel props },
}

/// How the number of a tree of a kind is read. What is no number is not read at once.
fn number_read(kind: Kind, tree: &Expr) -> Read
    requires { kind ≡ kind_of (tree_of tree.now) }
    ensures reads { ReadsAs result (tree_of tree.now) }
    ensures wholes { is_whole result ≡ true → kind ≡ Number }
{
    match kind {
        Kind::Number => read_of(tree),
        Kind::Text | Kind::Bytes => Read::Walk,
    }
}

/// How the test of a choice is made.
fn choice_test(tree: &Expr) -> Test
    ensures { TestsAs result (test_in (tree_of tree.now)) }
{
    match tree {
        Expr::Choice { test, .. } => test_of(test),
        _ => Test::Walk,
    }
}

/// Where the text of a field stands, if it is of fixed length.
fn field_place(field: &Field) -> Option<TextSlot>
    ensures { IfSome result (StandsAt (tree.field_text field.now)) }
{
    match field.place {
        FieldPlace::Fixed if field.size > 0 => Some(TextSlot {
            at: field.offset,
            len: field.size,
        }),
        _ => None,
    }
}

/// Where a text stands, if it is that of a field of fixed length.
fn text_place(tree: &Expr) -> Option<TextSlot>
    ensures { IfSome result (StandsAt (tree_of tree.now)) }
{
    match tree {
        Expr::FieldText { field } => field_place(field),
        _ => None,
    }
}

/// The name that the text of a tree is over every record, if it is one.
fn name_of(tree: &Expr) -> Option<Name>
    ensures { IfSome result (IsNamed (tree_of tree.now)) }
{
    match tree {
        Expr::Literal { text } => Name::of(text.as_bytes()),
        _ => None,
    }
}

/// The name that the first arm of a choice is.
fn yes_name(tree: &Expr) -> Option<Name>
    ensures { IfSome result (IsNamed (yes_in (tree_of tree.now))) }
{
    match tree {
        Expr::Choice { yes, .. } => name_of(yes),
        _ => None,
    }
}

/// The name that the second arm of a choice is.
fn no_name(tree: &Expr) -> Option<Name>
    ensures { IfSome result (IsNamed (no_in (tree_of tree.now))) }
{
    match tree {
        Expr::Choice { no, .. } => name_of(no),
        _ => None,
    }
}

/// The tree that gives the text of a tree: that under a cast, and of a choice the arm that is taken.
fn deep_source<'a>(expr: &'a Expr, rec: &Rec<'_>) -> &'a Expr
    ensures { text_of (given rec.now) (tree_of result.now) ≡ text_of (given rec.now) (tree_of expr.now) }
{
    match expr {
        Expr::Cast { of, .. } => deep_source(of, rec),
        Expr::Choice { test, yes, no } => {
            if holds(test, rec) {
                deep_source(yes, rec)
            } else {
                deep_source(no, rec)
            }
        }
        _ => expr,
    }
}

/// The same. Most trees are that tree themselves.
#[inline(always)]
pub fn source_of<'a>(tree: &'a Expr, rec: &Rec<'_>) -> &'a Expr
    ensures { text_of (given rec.now) (tree_of result.now) ≡ text_of (given rec.now) (tree_of tree.now) }
{
    match tree {
        Expr::Cast { .. } | Expr::Choice { .. } => deep_source(tree, rec),
        _ => tree,
    }
}

impl Argument {
    ghost use Rattle.fmt_eval.specs.NumView.{num_view};
    ghost use Rattle.fmt_print.specs.ArgumentView.{argument_tree};
    ghost use Rattle.fmt_print.specs.Strings.{address_of};

    /// The argument that a tree is.
    pub fn new(tree: Expr) -> Argument
        ensures { argument_tree result ≡ tree_of tree }
    {
        let kind = kind(&tree);
        let read = number_read(kind, &tree);
        let test = choice_test(&tree);
        let place = text_place(&tree);
        let yes = yes_name(&tree);
        let no = no_name(&tree);
        Argument {
            tree,
            kind,
            read,
            test,
            place,
            yes,
            no,
        }
    }

    /// Its number over a record.
    #[inline(always)]
    pub fn number(&self, rec: &Rec<'_>) -> Num
        ensures { num_view result ≡ number_of (given rec.now) (argument_tree self.now) }
    {
        number_by(self.read, &self.tree, rec)
    }

    /// Its number over a record, where it is read from four bytes.
    #[inline(always)]
    pub fn half(&self, rec: &Rec<'_>) -> Option<Num>
        ensures { IfSome result (λ n. num_view n ≡ number_of (given rec.now) (argument_tree self.now)) }
    {
        match self.read {
            Read::Half { .. } => Some(self.number(rec)),
            Read::Whole { .. } | Read::Walk => None,
        }
    }

    /// Its number over a record, where it is read from eight bytes.
    #[inline(always)]
    pub fn whole(&self, rec: &Rec<'_>) -> Option<Num>
        ensures number { IfSome result (λ n. num_view n ≡ number_of (given rec.now) (argument_tree self.now)) }
        ensures kind { IfSome result (λ _. kind_of (argument_tree self.now) ≡ Number) }
    {
        match self.read {
            Read::Whole { .. } => Some(self.number(rec)),
            Read::Half { .. } | Read::Walk => None,
        }
    }

    /// Its number over a record, as 64 bits; 0 where it is none.
    #[inline(always)]
    pub fn address(&self, rec: &Rec<'_>) -> u64
        ensures { result ≡ address_of (given rec.now) (argument_tree self.now) }
    {
        self.number(rec).pattern()
    }

    /// Its text where it lies in a record at a known place, perhaps with a NUL and more after it.
    #[inline(always)]
    #[tactic(auto, using(crate::proofs::KnownLemmas::stands_text))]
    pub fn placed_text<'a>(&self, rec: &Rec<'a>) -> Option<&'a [u8]>
        ensures value { IfSome result (λ text. until_nul text.now ≡ until_nul (text_of (given rec.now) (argument_tree self.now))) }
        ensures kind { IfSome result (λ _. kind_of (argument_tree self.now) ≡ Text) }
    {
        let place = self.place.as_ref()?;
        let start = place.at as usize;
        let end = start + place.len as usize;
        if rec.payload.len() < end {
            return None;
        }
        Some(&rec.payload[start..end])
    }

    /// What gives its text: of a choice the arm that is taken.
    #[inline(always)]
    pub fn source(&self, rec: &Rec<'_>) -> Source<'_>
        ensures name { IfSome result.name (λ name. name_text name.now ≡ until_nul (text_of (given rec.now) (argument_tree self.now))) }
        ensures tree { text_of (given rec.now) (tree_of result.tree.now) ≡ text_of (given rec.now) (argument_tree self.now) }
    {
        match &self.tree {
            Expr::Choice { test, yes, no } => {
                if holds_by(self.test, test, rec) {
                    Source {
                        name: self.yes.as_ref(),
                        tree: yes,
                    }
                } else {
                    Source {
                        name: self.no.as_ref(),
                        tree: no,
                    }
                }
            }
            tree => Source { name: None, tree },
        }
    }
}
