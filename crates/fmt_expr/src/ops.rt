//! Operators between two operands.

ghost use Rattle.std.specs.Prelude.{◌≡◌, ◌<◌, IfSome, length};
ghost use Rattle.fmt_expr.specs.Ops.{op_at, operator_at};
ghost use Rattle.fmt_expr.specs.SourceView.{source};

use crate::reader::Reader;
use c_operators::BinaryOp;

impl<'a> Reader<'a> {
    /// The operator at a place, of whatever level.
    pub fn operator(&self, at: usize) -> Option<BinaryOp>
        ensures { result ≡ operator_at (source self.now) at }
    {
        BinaryOp::from_mark(self.mark(at)?)
    }

    /// The operator of a level at a place.
    #[tactic(auto, unfolding(crate::specs::Ops::op_at))]
    pub fn op(&self, level: u32, at: usize) -> Option<BinaryOp>
        ensures value { result ≡ op_at (source self.now) level at }
        ensures within { IfSome result (λ op. at < length self.now.tokens.now) }
    {
        let op = BinaryOp::from_mark(self.mark(at)?)?;
        if op.level() == level { Some(op) } else { None }
    }
}
