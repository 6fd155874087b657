//! What a list of a board is, by its head.

ghost use Rattle.std.specs.Prelude.{◌≡◌};
ghost use Rattle.sexpr_read.specs.TreeViews.{tree_of};
ghost use Rattle.pcb_read.specs.Sorts.{is_curve, is_writing, drawn_sort, sort_by, sort_of};

use board_items::About;
use part_read::GraphicKind;
use sexpr_read::Node;

/// What a list says by its head.
#[derive(Clone, Copy, Debug, PartialEq, Eq, Drop)]
pub enum Sort {
    Track,
    Via,
    /// An arc of a track.
    Arc,
    /// Lines, or an area.
    Graphic(GraphicKind),
    /// An arc or a curve that is no track.
    Curve,
    /// A text or a dimension.
    Text(About),
    Zone,
    Footprint,
}

fn is_curve(head: Node<'_, '_>) -> bool
    ensures { result ≡ is_curve (tree_of head.entry) }
{
    head.is(b"gr_arc") || head.is(b"gr_curve") || head.is(b"bezier")
}

fn is_writing(head: Node<'_, '_>) -> bool
    ensures { result ≡ is_writing (tree_of head.entry) }
{
    head.is(b"gr_text") || head.is(b"gr_text_box")
}

fn drawn_sort(head: Node<'_, '_>) -> Option<Sort>
    ensures { result ≡ drawn_sort (tree_of head.entry) }
{
    if head.is(b"gr_line") {
        Some(Sort::Graphic(GraphicKind::Line))
    } else if head.is(b"gr_rect") {
        Some(Sort::Graphic(GraphicKind::Rect))
    } else if head.is(b"gr_circle") {
        Some(Sort::Graphic(GraphicKind::Circle))
    } else if head.is(b"gr_poly") {
        Some(Sort::Graphic(GraphicKind::Outline))
    } else if is_curve(head) {
        Some(Sort::Curve)
    } else if is_writing(head) {
        Some(Sort::Text(About::Text))
    } else if head.is(b"dimension") {
        Some(Sort::Text(About::Dimension))
    } else {
        None
    }
}

/// The sort of the lists that begin with this part. Tracks and vias are the most by far.
fn sort_by(head: Node<'_, '_>) -> Option<Sort>
    ensures { result ≡ sort_by (tree_of head.entry) }
{
    if head.is(b"segment") {
        Some(Sort::Track)
    } else if head.is(b"via") {
        Some(Sort::Via)
    } else if head.is(b"zone") {
        Some(Sort::Zone)
    } else if head.is(b"footprint") {
        Some(Sort::Footprint)
    } else if head.is(b"arc") {
        Some(Sort::Arc)
    } else {
        drawn_sort(head)
    }
}

/// The sort of a list; None where its head is that of no item.
#[tactic(auto, unfolding(crate::specs::Sorts::sort_of))]
pub(crate) fn sort_of(node: Node<'_, '_>) -> Option<Sort>
    ensures { result ≡ sort_of (tree_of node.entry) }
{
    match node.children().next() {
        None => None,
        Some(head) => sort_by(head),
    }
}
