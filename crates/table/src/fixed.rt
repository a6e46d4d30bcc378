// What never changes in a call: the same at each of its ticks.
ghost use Rattle.cells.specs.Layout.{Laid};
ghost use Rattle.steps.specs.Steps.{Steps};
ghost use Rattle.table.specs.Edges.{Edged, Linked};

use super::Links;
use cells::Layout;
use pattern::Edge;
use steps::Step;
use weighting::Weighing;

// The layout of the table; how runs are weighed; the edges in use, as the pattern has them, linked place by place and as
// steps; the places where a run may begin and end, and the least length with which it may end. Of the edges the contracts
// alone speak, but a ghost field can only be a fact (tried): they are an array with a count, as the definitions have them
// (`common_of` of `feed_ticks`), where nothing allocates. `laid` says what the layout's type says, for functions that read none of
// its fields.
#[derive(Drop)]
pub struct Ground {
    pub layout: Layout,
    pub weighing: Weighing,
    pub edges: [Edge; 32],
    pub count: usize,
    pub links: Links,
    pub steps: [Step; 32],
    pub starts: [bool; 16],
    pub ends: [bool; 16],
    pub low: usize,
    pub ghost laid: { Laid layout },
    pub ghost edged: { Edged layout edges count },
    pub ghost linked: { Linked edges count links },
    pub ghost stepped: { Steps edges count steps },
}
