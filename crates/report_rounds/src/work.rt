use tournament_tree::TournamentTree;
use trace_outside::Pending;

/// What rounds work with, beside the lanes.
#[derive(Drop)]
pub(crate) struct RoundWork {
    /// A tree with a slot for each lane: that of the lanes' first lines.
    pub(crate) heads: TournamentTree,
    /// Another such tree: that of the lanes' greatest times.
    pub(crate) highs: TournamentTree,
    /// A dirty bit for each lane: whether the lane moved, so that it is looked at.
    pub(crate) moved: Vec<bool>,
    /// Room for the text of a round. Nothing waits in it.
    pub(crate) pending: Pending,
}
