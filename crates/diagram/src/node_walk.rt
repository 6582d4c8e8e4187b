//! The nodes below an id, by a walk whose pending work stands in frames.
ghost use Rattle.std.specs.Prelude.{◌≡◌, ◌≤◌, ◌↔◌, List, pos, length, unsigned_abs, vec_capacity, IsTrue};
ghost use Rattle.integers.specs.Gcd.{gcd as divisor};
ghost use Rattle.kind_laws.specs.Body.{Reads};
ghost use Rattle.kind_laws.specs.Content.{content_of_fields};
ghost use Rattle.kind_laws.specs.Kind.{IsNodeBody};
ghost use Rattle.record_store.specs.StoreView.{find_in};
ghost use Rattle.tables.specs.Tree.{Shape};
ghost use Rattle.diagram.specs.Below.{IsStart, IsNumbered, HasLevels, IsDone, AreMarked, MarksNodes};
ghost use Rattle.diagram.specs.Contents.{GathersContents};

use kind_laws::{Kind, children, gcd};
use marks::Marks;
use record_store::Store;
use word_base::Weight;

/// A node whose children are walked.
#[derive(Drop)]
pub(crate) struct NodeFrame {
    id: u32,
    high: u32,
    /// Whether the walk from the low child is done.
    has_low: bool,
}

/// Marks the nodes that are reached from an id, and gives the greatest common divisor of a content and of those of the nodes that it
/// marked. Nothing below a node that is marked is visited again.
pub(crate) fn gather_below<K: Kind, S: Store>(
    store: &mut S,
    marks: &mut Marks,
    frames: &mut Vec<NodeFrame>,
    id: u32,
    content: Weight,
) -> Weight
    requires start { IsStart K.NAME (find_in (S.view store.old)) id }
    requires numbered { IsNumbered (find_in (S.view store.old)) (length marks.old) }
    requires met { (found : List Shape) × AreMarked K.NAME (find_in (S.view store.old)) marks.old found }
    requires room { HasLevels (find_in (S.view store.old)) (vec_capacity frames.old) }
    ensures unchanged { S.view store.new ≡ S.view store.old }
    ensures cells { length marks.new ≡ length marks.old }
    ensures marks { MarksNodes K.NAME (find_in (S.view store.old)) id marks.old marks.new }
    ensures contents { GathersContents K.NAME (find_in (S.view store.old)) id marks.old content result }
    ensures room { vec_capacity frames.new ≡ vec_capacity frames.old }
{
    frames.clear();
    let mut gathered = content;
    let mut next = Some(id);
    loop {
        match next {
            Some(id) => {
                if is_done(marks, id) {
                    next = None;
                } else {
                    let body = store.fields(id);
                    let (low, high) = children(&body);
                    gathered = with_content_of::<K>(gathered, &body);
                    frames.push_reserved(NodeFrame {
                        id,
                        high,
                        has_low: false,
                    });
                    next = Some(low);
                }
            }
            None => match frames.pop() {
                None => return gathered,
                Some(frame) => {
                    if frame.has_low {
                        marks.mark(frame.id);
                    } else {
                        next = Some(frame.high);
                        frames.push_reserved(NodeFrame {
                            has_low: true,
                            ..frame
                        });
                    }
                }
            },
        }
    }
}

/// Whether nothing is left to visit at an id: the leaf's, or one that is marked.
fn is_done(marks: &Marks, id: u32) -> bool
    requires { id ≤ length marks.now }
    ensures { IsTrue result ↔ IsDone marks.now id }
{
    id == 0 || marks.has(id)
}

/// The greatest common divisor of a content and a body's. The body is not read where the content is 1.
fn with_content_of<K: Kind>(content: Weight, body: &[u64; 8]) -> Weight
    requires { IsNodeBody K.NAME body.now }
    ensures { Reads body.now (λ f. result ≡ pos (divisor (unsigned_abs content) (content_of_fields K.NAME f))) }
{
    if content == Weight::ONE {
        return content;
    }
    gcd(content, K::body_content(body))
}
